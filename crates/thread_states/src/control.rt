// When a state is left, and what follows it then.

ghost use Rattle.std.specs.Prelude.{length, IfOk};
ghost use Rattle.operator_wires.specs.Built.{Base, IsEarlier, Adds};
ghost use Rattle.thread_states.specs.Wired.{IsSteered, WiresControl};
ghost use Rattle.thread_states.specs.Control.{Follows, Controls, Remembers, RemembersOne, AddsRemembered, AddsMark};

use bank_partition::banks::Spread;
use block_datapath::registers::Registers;
use operator_wires::wires::Wires;
use sqlite_items::{Items, at};
use std::alloc::AllocError;
use thread_slots::bits::{any_of, any_within, both_each, both_with, not_each};
use thread_slots::chains::Chains;
use thread_slots::inputs::Inputs;
use verilog_tree::tree::BinaryOperator;

/// What happens at an edge.
#[derive(Drop)]
pub struct Edge {
    /// Whether each core is asked: banks, mutexes, barriers, the thread ids and the printer, in this order.
    pub asks: Items<usize>,
    /// Whether the state is left.
    pub leave: usize,
    /// The state that follows then.
    pub state: usize,
    /// The turned beat.
    pub beat: usize,
    /// Whether the state is left, or a core grants.
    pub moved: usize,
    /// Of each global whether its access in this state is granted then.
    pub granted: Items<usize>,
}

/// Enabled, the state is left unless it waits or a request is not granted. What cores are asked that have not granted yet
/// comes in as a bit of each core, in their order; what has been granted as a bit of each global.
pub fn control(
    wires: &mut Wires,
    registers: &Registers,
    inputs: &Inputs,
    chains: &Chains,
    opens: &[usize],
    granted: &[usize],
) -> Result<Edge, AllocError>
    ensures controls { IfOk result (Controls wires.old.signals wires.new.signals registers.now inputs.now chains.now opens.now granted.now) }
    ensures wired { IfOk result (λ edge. (base : Base) → IsSteered base wires.old.signals registers.now inputs.now chains.now opens.now granted.now →
        WiresControl base wires.old.signals wires.new.signals registers.now inputs.now opens.now granted.now edge) }
{
    let asks = both_with(wires, opens, inputs.enable)?;
    let got = both_each(wires, asks.as_slice(), inputs.grants.as_slice())?;
    let blocked = {
        let missing = not_each(wires, got.as_slice())?;
        let unmet = both_each(wires, opens, missing.as_slice())?;
        any_of(wires, chains.waits, unmet.as_slice())?
    };
    let free = wires.not(1, blocked)?;
    let leave = wires.both(inputs.enable, free)?;
    let state = next_state(wires, registers, chains.is_last)?;
    let beat = wires.not(1, registers.beat)?;
    let moved = any_of(wires, leave, got.as_slice())?;
    let stay = wires.not(1, leave)?;
    let granted = remember(
        wires,
        granted,
        got.as_slice(),
        registers.spreads.as_slice(),
        stay,
    )?;
    Ok(Edge {
        asks,
        leave,
        state,
        beat,
        moved,
        granted,
    })
}

/// Of each global whether its access is granted, before or now, if the state stays.
fn remember(
    wires: &mut Wires,
    granted: &[usize],
    got: &[usize],
    spreads: &[Spread],
    stay: usize,
) -> Result<Items<usize>, AllocError>
    ensures shows { IfOk result (λ nexts. Remembers wires.old.signals wires.new.signals granted.now got.now spreads.now stay (length granted.now) nexts) }
    ensures wired { IfOk result (AddsRemembered wires.old.signals wires.new.signals granted.now got.now stay) }
{
    let mut nexts = Items::new(wires.alloc);
    for (number, mark) in granted.iter().enumerate() {
        let spread = at(spreads, number).copied();
        let next = remember_one(wires, *mark, got, spread, stay)?;
        nexts.push(next)?;
    }
    Ok(nexts)
}

fn remember_one(
    wires: &mut Wires,
    mark: usize,
    got: &[usize],
    spread: Option<Spread>,
    stay: usize,
) -> Result<usize, AllocError>
    ensures shows { IfOk result (RemembersOne wires.old.signals wires.new.signals mark got.now spread stay) }
    ensures wired { IfOk result (AddsMark wires.old.signals wires.new.signals mark got.now stay) }
{
    match spread {
        Some(spread) => {
            let any = any_within(wires, mark, got, spread)?;
            wires.both(any, stay)
        }
        None => wires.both(mark, stay),
    }
}

/// The state after this one: the first one of the next stage, or the next one of this stage.
fn next_state(wires: &mut Wires, registers: &Registers, is_last: usize) -> Result<usize, AllocError>
    ensures follows { IfOk result (Follows wires.old.signals wires.new.signals registers.now.state is_last) }
    ensures wired { IfOk result (λ place. (base : Base) → IsEarlier wires.old.signals base registers.now.state.register registers.now.state.width →
        IsEarlier wires.old.signals base is_last 1
        → Adds base wires.old.signals wires.new.signals registers.now.state.width place) }
{
    let state = registers.state;
    let one = wires.constant(state.width, 1)?;
    let following = wires.binary(state.width, BinaryOperator::Add, state.register, one)?;
    let first = wires.constant(state.width, 0)?;
    wires.choice(state.width, is_last, first, following)
}
