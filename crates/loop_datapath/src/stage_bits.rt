// Which stages of a loop have an iteration, as bits.

ghost use Rattle.std.specs.Prelude.{◌≡◌, max, take, slice_index_or, IfOk};
ghost use Rattle.loop_datapath.specs.StageBits.{ShowsFlag, ShowsRunning, ShowsInside, TellsStages};
ghost use Rattle.loop_datapath.specs.Wired.{IsFlagBit, IsRunningBit, AreInsideBits, AreStageBits};

use crate::operands::word_at;
use crate::states::{LoopStates, round_count};
use crate::times::{LoopTimes, time_at};
use block_datapath::operands::held_at;
use block_datapath::registers::{Registers, place_at};
use operator_wires::wires::Wires;
use operator_wires::words::Word;
use sqlite_items::Items;
use std::alloc::AllocError;
use thread_slots::bits::any_of;

/// Where the iterations of a loop are.
#[derive(Drop)]
pub struct StageBits {
    /// Of each stage whether an iteration is in it whose comparison held; of the first one it is known once its iteration has
    /// compared.
    pub inside: Items<usize>,
    /// Whether another round follows this one: an iteration is in a stage before the last one.
    pub goes_round: usize,
    /// Whether an iteration ends with this round.
    pub is_last: usize,
}

impl StageBits {
    /// Whether an iteration is in a stage; of one that the loop does not have it is a bit that is given.
    pub fn stage(&self, number: u32, otherwise: usize) -> usize
        ensures { result ≡ slice_index_or self.now.inside number otherwise }
    {
        let inside = self.inside.as_slice();
        inside.get(number as usize).copied().unwrap_or(otherwise)
    }
}

/// Where the iterations are, in a loop with these words of its operations.
pub fn stage_bits(
    wires: &mut Wires,
    registers: &Registers,
    times: &LoopTimes,
    comparison: u32,
    words: &[Word],
    states: &LoopStates,
) -> Result<StageBits, AllocError>
    ensures shows { IfOk result (TellsStages wires.old.signals wires.new.signals registers.now times.now comparison words.now states.now) }
    ensures wired { IfOk result (AreStageBits wires.old.signals wires.new.signals registers.now times.now words.now states.now) }
{
    let running = running_bit(wires, registers, times, comparison, words, states)?;
    let rounds = states.rounds.as_slice();
    let inside = inside_bits(wires, registers, times, running, rounds)?;
    let stages = inside.as_slice();
    let ahead = round_count(times).saturating_sub(1);
    let goes_round = any_of(wires, states.never, first_bits(stages, ahead as usize))?;
    let end = times.stages.saturating_sub(1) as usize;
    let is_last = wires.both(place_at(rounds, end), place_at(stages, end))?;
    Ok(StageBits {
        inside,
        goes_round,
        is_last,
    })
}

/// Whether the iteration of this round runs: in its comparison's phase by this, and else by what the register of the first
/// stage says. In the first round nothing is said there before.
fn running_bit(
    wires: &mut Wires,
    registers: &Registers,
    times: &LoopTimes,
    comparison: u32,
    words: &[Word],
    states: &LoopStates,
) -> Result<usize, AllocError>
    ensures shows { IfOk result (ShowsRunning wires.old.signals wires.new.signals registers.now times.now comparison words.now states.now) }
    ensures wired { IfOk result (IsRunningBit wires.old.signals wires.new.signals registers.now times.now words.now states.now) }
{
    let number = comparison as usize;
    let known = flag_bit(wires, registers, times.bits as usize)?;
    let Some(word) = word_at(words, number) else {
        return Ok(known);
    };
    let fails = wires.is_zero(word)?;
    let holds = wires.not(1, fails)?;
    let is_first = wires.not(1, place_at(states.rounds.as_slice(), 1))?;
    let ran = wires.either(is_first, known)?;
    let runs = wires.both(ran, holds)?;
    let compares = states.phase(time_at(times, number).phase);
    wires.choice(1, compares, runs, known)
}

/// Of each stage whether an iteration is in it: of the first one this bit, and of another one what its register says, once so
/// many rounds have begun.
fn inside_bits(
    wires: &mut Wires,
    registers: &Registers,
    times: &LoopTimes,
    running: usize,
    rounds: &[usize],
) -> Result<Items<usize>, AllocError>
    ensures shows { IfOk result (ShowsInside wires.old.signals wires.new.signals registers.now times.now running rounds.now (max 1 times.now.stages)) }
    ensures wired { IfOk result (AreInsideBits wires.old.signals wires.new.signals registers.now times.now running rounds.now) }
{
    let mut inside = Items::new(wires.alloc);
    inside.push(running)?;
    for stage in 1..times.stages {
        let known = flag_bit(wires, registers, times.bits as usize + stage as usize)?;
        let bit = wires.both(place_at(rounds, stage as usize), known)?;
        inside.push(bit)?;
    }
    Ok(inside)
}

/// The low bit of a register for values. Of a number that is no register's it is 0.
fn flag_bit(wires: &mut Wires, registers: &Registers, number: usize) -> Result<usize, AllocError>
    ensures shows { IfOk result (ShowsFlag wires.old.signals wires.new.signals registers.now number) }
    ensures wired { IfOk result (IsFlagBit wires.old.signals wires.new.signals registers.now) }
{
    match held_at(registers.kept.as_slice(), number) {
        Some(held) => wires.resized(held.register, held.width, 1, false),
        None => wires.constant(1, 0),
    }
}

/// The first so many bits, or all where there are fewer.
fn first_bits(bits: &[usize], count: usize) -> &[usize]
    ensures { result.now ≡ take count bits.now }
{
    bits.get(..count).unwrap_or(bits)
}
