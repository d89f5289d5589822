// The module `top_rr`.

ghost use Rattle.std.specs.Prelude.{◌≡◌, ◌+◌, ◌-◌, ◌^◌, ◌≤◌, [], ◌∷◌, ◌++◌, true, length, IfOk, OnOk};
ghost use Rattle.verilog_tree.specs.Spelling.{is_name};
ghost use Rattle.top_wiring.specs.Round.{inner, counting, round_signals, top_instance, IsRound};

use crate::signals::{input, numbered, output};
use netlist::netlist::{Action, Effect, Instance, Module, Signal, Source, Value};
use sqlite_items::Items;
use std::alloc::{AllocError, Global};
use verilog_tree::name::Identifier;
use verilog_tree::tree::BinaryOperator;

/// A signal that is no port, behind these.
fn push_inner(
    alloc: Global,
    signals: &mut Items<Signal>,
    stem: &str,
    place: usize,
    width: u64,
    source: Source,
) -> Result<(), AllocError>
    requires { is_name stem.now ≡ true }
    ensures { OnOk result (signals.new ≡ signals.old ++ inner stem.now place width source ∷ []) }
{
    let name = numbered(alloc, stem, place)?;
    signals.push(Signal {
        name,
        width,
        is_output: false,
        source,
    })
}

/// The mask that enables so many threads.
fn all_enabled(threads: usize) -> u64
    requires { threads ≤ 64 }
    ensures { result ≡ 2 ^ threads - 1 }
{
    if threads == 64 {
        return u64::MAX;
    }
    (1u64 << threads as u32) - 1
}

/// `clk`, the counter, 1, and their sum.
fn counting(alloc: Global) -> Result<Items<Signal>, AllocError>
    ensures { IfOk result (λ signals. signals ≡ counting) }
{
    let mut signals = Items::new(alloc);
    signals.push(input(Identifier::from_text(alloc, "clk")?, 1))?;
    push_inner(alloc, &mut signals, "counter", 1, 4, Source::Register(0))?;
    let one = Source::Assigned(Value::Constant(1));
    push_inner(alloc, &mut signals, "w", 2, 4, one)?;
    let sum = Source::Assigned(Value::Binary {
        operator: BinaryOperator::Add,
        left: 1,
        right: 2,
    });
    push_inner(alloc, &mut signals, "w", 3, 4, sum)?;
    Ok(signals)
}

/// The signals of `top_rr`: behind those the mask of all threads, what the instance shows, two zeros, the preferred
/// thread, which is the counter behind the zeros, and `done`.
fn signals(alloc: Global, threads: usize, done: usize) -> Result<Items<Signal>, AllocError>
    requires { threads ≤ 64 }
    ensures { IfOk result (λ signals. signals ≡ round_signals threads done) }
{
    let mut signals = counting(alloc)?;
    let mask = Source::Assigned(Value::Constant(all_enabled(threads)));
    push_inner(alloc, &mut signals, "w", 4, threads as u64, mask)?;
    let shown = Source::Port {
        instance: 0,
        port: done,
    };
    push_inner(alloc, &mut signals, "w", 5, 1, shown)?;
    let zeros = Source::Assigned(Value::Constant(0));
    push_inner(alloc, &mut signals, "w", 6, 2, zeros)?;
    let parts = Items::from_slice(alloc, &[6, 1])?;
    let preferred = Source::Assigned(Value::Concatenation(parts));
    push_inner(alloc, &mut signals, "w", 7, 6, preferred)?;
    signals.push(output(alloc, 5)?)?;
    Ok(signals)
}

fn instance(alloc: Global, top: usize, cores: usize) -> Result<Instance, AllocError>
    ensures { IfOk result (λ it. it ≡ top_instance top cores) }
{
    let mut inputs = Items::from_slice(alloc, &[0, 4])?;
    inputs.append(Items::from_vec(vec![in alloc; 7; cores]?))?;
    Ok(Instance {
        name: numbered(alloc, "dut", 0)?,
        of: top,
        inputs,
        outputs: Items::from_slice(alloc, &[5])?,
    })
}

/// `top_rr` over a `top` of so many threads and cores, which is a module of a number and has its output at a place.
pub fn module(
    alloc: Global,
    top: usize,
    threads: usize,
    cores: usize,
    done: usize,
) -> Result<Module, AllocError>
    requires { threads ≤ 64 }
    ensures { IfOk result (IsRound threads top done cores) }
{
    let signals = signals(alloc, threads, done)?;
    let mut actions = Items::new(alloc);
    actions.push(Action {
        conditions: Items::new(alloc),
        effect: Effect::Set {
            register: 1,
            source: 3,
        },
    })?;
    let mut instances = Items::new(alloc);
    instances.push(instance(alloc, top, cores)?)?;
    Ok(Module {
        name: Identifier::from_text(alloc, "top_rr")?,
        signals,
        memories: Items::new(alloc),
        actions,
        instances,
    })
}
