// The states of a loop as bits: of each phase whether the slot is in it, and of each round whether it has begun.

ghost use Rattle.std.specs.Prelude.{◌≡◌, ℕ, ◌*◌, max, length, IfOk};
ghost use Rattle.thread_slots.specs.Bits.{MakesBits, MakesAny, EitherIf, AddsAny, EitherAdds};
ghost use Rattle.loop_datapath.specs.declared.states.StateSet.TheVariants as set_of;
ghost use Rattle.loop_datapath.specs.States.{contains, state_count, phase_bit, StateOf, PartOf, TellsLoop};
ghost use Rattle.loop_datapath.specs.Wired.{AreStateBits, AreSomeBits, AreLoopBits};

use crate::times::LoopTimes;
use block_datapath::registers::Registers;
use block_datapath::states::{Moment, at_stage, in_state};
use operator_wires::wires::Wires;
use sqlite_items::Items;
use std::alloc::AllocError;

/// Some of the states of a loop: those of a phase in any round, or those from one on.
#[derive(Clone, Copy)]
pub enum StateSet {
    Phase { interval: u32, phase: u64 },
    From(u64),
}

impl StateSet {
    fn contains(self, state: u64) -> bool
        ensures { result ≡ contains self state }
    {
        match self {
            StateSet::Phase { interval, phase } => {
                interval != 0 && state % u64::from(interval) == phase
            }
            StateSet::From(first) => first <= state,
        }
    }
}

/// Bits of the states of a loop.
#[derive(Drop)]
pub struct LoopStates {
    /// A bit that is never set.
    pub never: usize,
    /// Of each phase whether the slot is in it, in any round.
    pub phases: Items<usize>,
    /// Of each round whether it has begun.
    pub rounds: Items<usize>,
    /// Whether the slot is in the last state of all.
    pub last: usize,
}

impl LoopStates {
    /// Whether the slot is in a phase; never in one that the loop does not have.
    pub fn phase(&self, number: u32) -> usize
        ensures { result ≡ phase_bit self.now number }
    {
        let phases = self.phases.as_slice();
        phases.get(number as usize).copied().unwrap_or(self.never)
    }
}

/// How many rounds have states of their own, two at least: those before an iteration ends, and one that stands for all others.
pub fn round_count(times: &LoopTimes) -> u32
    ensures { result ≡ max 2 times.now.stages }
{
    times.stages.max(2)
}

/// How many states a loop has.
pub fn state_count(times: &LoopTimes) -> u64
    ensures { result ≡ state_count times.now }
{
    u64::from(round_count(times)) * u64::from(times.interval)
}

/// The bits of the states of a loop at a stage.
pub fn loop_states(
    wires: &mut Wires,
    registers: &Registers,
    stage: u64,
    times: &LoopTimes,
) -> Result<LoopStates, AllocError>
    ensures shows { IfOk result (TellsLoop registers.now stage times.now wires.old.signals wires.new.signals) }
    ensures wired { IfOk result (AreLoopBits wires.old.signals wires.new.signals registers.now stage times.now) }
{
    let at = at_stage(wires, registers, stage)?;
    let never = wires.constant(1, 0)?;
    let count = state_count(times);
    let states = state_bits(wires, registers, at, count)?;
    let bits = states.as_slice();
    let phases = phase_bits(wires, never, bits, times.interval)?;
    let rounds = round_bits(wires, never, bits, times)?;
    let end = StateSet::From(count.saturating_sub(1));
    let last = any_state(wires, never, bits, end)?;
    Ok(LoopStates {
        never,
        phases,
        rounds,
        last,
    })
}

/// Of each state whether the slot is in it.
fn state_bits(
    wires: &mut Wires,
    registers: &Registers,
    at: usize,
    states: u64,
) -> Result<Items<usize>, AllocError>
    ensures shows { IfOk result (λ bits. MakesBits wires.old.signals wires.new.signals states bits (StateOf registers.now at states)) }
    ensures wired { IfOk result (AreStateBits wires.old.signals wires.new.signals registers.now at states) }
{
    let mut bits = Items::new(wires.alloc);
    for state in 0..states {
        let moment = Moment { at, state, states };
        let bit = in_state(wires, registers, moment)?;
        bits.push(bit)?;
    }
    Ok(bits)
}

/// Of each phase whether the slot is in it.
fn phase_bits(
    wires: &mut Wires,
    never: usize,
    states: &[usize],
    interval: u32,
) -> Result<Items<usize>, AllocError>
    ensures shows { IfOk result (λ bits. MakesBits wires.old.signals wires.new.signals interval bits (PartOf never states.now (set_of.Phase interval))) }
    ensures wired { IfOk result (AreSomeBits wires.old.signals wires.new.signals never states.now) }
{
    let mut bits = Items::new(wires.alloc);
    for phase in 0..u64::from(interval) {
        let set = StateSet::Phase { interval, phase };
        let bit = any_state(wires, never, states, set)?;
        bits.push(bit)?;
    }
    Ok(bits)
}

/// Of each round whether it has begun.
fn round_bits(
    wires: &mut Wires,
    never: usize,
    states: &[usize],
    times: &LoopTimes,
) -> Result<Items<usize>, AllocError>
    ensures shows { IfOk result (λ bits. MakesBits wires.old.signals wires.new.signals (max 2 times.now.stages) bits
        (PartOf never states.now (λ (k : ℕ). set_of.From (k * times.now.interval)))) }
    ensures wired { IfOk result (AreSomeBits wires.old.signals wires.new.signals never states.now) }
{
    let mut bits = Items::new(wires.alloc);
    for round in 0..u64::from(round_count(times)) {
        let first = round * u64::from(times.interval);
        let bit = any_state(wires, never, states, StateSet::From(first))?;
        bits.push(bit)?;
    }
    Ok(bits)
}

/// Whether a first bit is set or the slot is in one of some states.
fn any_state(
    wires: &mut Wires,
    first: usize,
    states: &[usize],
    some: StateSet,
) -> Result<usize, AllocError>
    ensures shows { IfOk result (MakesAny wires.old.signals wires.new.signals first states.now (contains some) (length states.now)) }
    ensures wired { IfOk result (AddsAny wires.old.signals wires.new.signals first states.now) }
{
    let mut any = first;
    for (state, bit) in states.iter().enumerate() {
        let next = either_if(wires, any, *bit, some.contains(state as u64))?;
        any = next;
    }
    Ok(any)
}

/// Whether a bit is set, or another one, if that counts.
fn either_if(wires: &mut Wires, any: usize, bit: usize, counts: bool) -> Result<usize, AllocError>
    ensures shows { IfOk result (EitherIf wires.old.signals wires.new.signals any bit counts) }
    ensures wired { IfOk result (EitherAdds wires.old.signals wires.new.signals any bit) }
{
    if counts {
        wires.either(any, bit)
    } else {
        Ok(any)
    }
}
