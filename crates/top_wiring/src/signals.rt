// The signals of `top`.

ghost use Rattle.std.specs.Prelude.{◌≡◌, [], ◌∷◌, ◌++◌, true, length, codes, IfOk, OnOk};
ghost use Rattle.verilog_tree.specs.Spelling.{is_name};
ghost use Rattle.verilog_meaning.specs.Names.{numbered};
ghost use Rattle.circuit.specs.Rows.{spread};
ghost use Rattle.top_parts.specs.Parts.{each_from};
ghost use Rattle.top_parts.specs.Wires.{wire_signal};
ghost use Rattle.top_wiring.specs.Top.{input, preference, output, top_signals};

use netlist::netlist::{Signal, Source, Value};
use sqlite_items::Items;
use std::alloc::{AllocError, Global};
use top_parts::wires::Wire;
use verilog_tree::name::Identifier;

/// A name with a number.
pub fn numbered(alloc: Global, stem: &str, number: usize) -> Result<Identifier, AllocError>
    requires { is_name stem.now ≡ true }
    ensures { IfOk result (λ it. it ≡ numbered stem.now number) }
{
    let stem = Identifier::from_text(alloc, stem)?;
    stem.with_number(alloc, number as u64)
}

/// An input port.
pub fn input(name: Identifier, width: u64) -> Signal
    ensures { result ≡ input name width }
{
    Signal {
        name,
        width,
        is_output: false,
        source: Source::Input,
    }
}

/// The output port `done`, which copies a signal.
pub fn output(alloc: Global, place: usize) -> Result<Signal, AllocError>
    ensures { IfOk result (λ signal. signal ≡ output place) }
{
    Ok(Signal {
        name: Identifier::from_text(alloc, "done")?,
        width: 1,
        is_output: true,
        source: Source::Assigned(Value::Copy(place)),
    })
}

/// The signal of a wire, of this place.
fn wire_signal(alloc: Global, place: usize, wire: Wire) -> Result<Signal, AllocError>
    ensures { IfOk result (λ signal. signal ≡ wire_signal place wire) }
{
    let name = numbered(alloc, "w", place)?;
    let (width, source) = match wire {
        Wire::Whole => (1, Source::Assigned(Value::Copy(1))),
        Wire::Bit { thread } => {
            let bit = thread as u64;
            (
                1,
                Source::Assigned(Value::Select {
                    of: 1,
                    high: bit,
                    low: bit,
                }),
            )
        }
        Wire::Port {
            width,
            instance,
            port,
        } => (width, Source::Port { instance, port }),
    };
    Ok(Signal {
        name,
        width,
        is_output: false,
        source,
    })
}

fn push_preferences(
    alloc: Global,
    signals: &mut Items<Signal>,
    count: usize,
) -> Result<(), AllocError>
    ensures { OnOk result (signals.new ≡ signals.old ++ spread preference 0 count) }
{
    for number in 0..count {
        let name = numbered(alloc, "pref", number)?;
        signals.push(input(name, 6))?;
    }
    Ok(())
}

fn push_wires(alloc: Global, signals: &mut Items<Signal>, wires: &[Wire]) -> Result<(), AllocError>
    ensures { OnOk result (signals.new ≡ signals.old ++ each_from wire_signal (length signals.old) wires.now) }
{
    for wire in wires {
        let signal = wire_signal(alloc, signals.len(), *wire)?;
        signals.push(signal)?;
    }
    Ok(())
}

/// The inputs `clk` and `en`.
fn heads(alloc: Global, threads: usize) -> Result<Items<Signal>, AllocError>
    ensures { IfOk result (λ signals. signals ≡ input (codes "clk") 1 ∷ input (codes "en") threads ∷ []) }
{
    let mut signals = Items::new(alloc);
    let clock = input(Identifier::from_text(alloc, "clk")?, 1);
    signals.push(clock)?;
    let mask = input(Identifier::from_text(alloc, "en")?, threads as u64);
    signals.push(mask)?;
    Ok(signals)
}

/// The signals of `top`: `clk`, `en`, the preferred thread of each arbiter, the wires, and `done`.
pub fn signals(
    alloc: Global,
    threads: usize,
    cores: usize,
    wires: &[Wire],
    done: usize,
) -> Result<Items<Signal>, AllocError>
    ensures { IfOk result (λ signals. signals ≡ top_signals threads cores wires.now done) }
{
    let mut signals = heads(alloc, threads)?;
    push_preferences(alloc, &mut signals, cores)?;
    push_wires(alloc, &mut signals, wires)?;
    let shown = output(alloc, done)?;
    signals.push(shown)?;
    Ok(signals)
}
