// A loop at a stage: its values, and what a state of it leaves.

ghost use Rattle.std.specs.Prelude.{length, IfOk, OnOk};
ghost use Rattle.thread_promise.specs.Types.{operand_type};
ghost use Rattle.loop_datapath.specs.Leave.{ShowsWrite, SetsLoopFinal, SetsLoopFinals, LeavesLoop};
ghost use Rattle.loop_datapath.specs.Wired.{IsWriteAdded, SetsFinalLinks, IsLoopAdded};

use crate::chains::{keep_chains, keep_stages};
use crate::operands::operand_ahead;
use crate::operations::loop_words;
use crate::rounds::operand_in;
use crate::stage_bits::{StageBits, stage_bits};
use crate::states::{LoopStates, loop_states};
use crate::times::{LoopTimes, OperationTime, RoundPhase, time_at};
use block_datapath::operands::type_at;
use block_datapath::registers::{Registers, set_next};
use block_ir::block::{Block, Final};
use block_ir::code::ThreadCode;
use block_ir::operand::Operand;
use hls_ints::CType;
use operator_wires::wires::Wires;
use operator_wires::words::Word;
use sqlite_items::Items;
use std::alloc::AllocError;

/// A write of a local array: where the condition holds and the state is left, this is stored at this index.
#[derive(Clone, Copy)]
pub struct LoopWrite {
    pub array: usize,
    pub condition: usize,
    pub index: Word,
    pub value: Word,
}

/// The values of a loop's operations, the bits of its states and stages, where it is left, and where it goes back.
#[derive(Drop)]
pub struct LoopLeft {
    pub words: Items<Word>,
    pub states: LoopStates,
    pub bits: StageBits,
    /// Whether this state is the last one of a round behind which no other follows.
    pub last: usize,
    /// Whether this state is the last one of all, and another round follows.
    pub again: usize,
}

/// Puts the wires of a loop behind the others, sets the variables where an iteration ends, and lets registers keep the values
/// that are used later and which stages have an iteration.
pub fn leave_loop(
    wires: &mut Wires,
    registers: &Registers,
    variables: &mut Items<usize>,
    kept: &mut Items<usize>,
    code: &ThreadCode,
    globals: &[CType],
    stage: u64,
    turn: &Block,
    comparison: u32,
    times: &LoopTimes,
) -> Result<LoopLeft, AllocError>
    ensures shows { IfOk result (λ left. LeavesLoop globals.now code.now registers.now stage turn.now comparison times.now variables.old variables.new kept.old kept.new
        left wires.old.signals wires.new.signals) }
    ensures wired { IfOk result (IsLoopAdded wires.old.signals wires.new.signals code.now registers.now stage times.now variables.old variables.new kept.old kept.new) }
{
    let states = loop_states(wires, registers, stage, times)?;
    let rounds = states.rounds.as_slice();
    let words = loop_words(wires, registers, code, globals, turn, times, rounds)?;
    let given = words.as_slice();
    let bits = stage_bits(wires, registers, times, comparison, given, &states)?;
    let end = states.phase(times.interval.saturating_sub(1));
    set_loop_finals(
        wires, registers, variables, code, turn, times, given, &bits, end,
    )?;
    keep_chains(wires, registers, kept, times, given, &states)?;
    keep_stages(wires, registers, kept, times, comparison, &bits, &states)?;
    let stops = wires.not(1, bits.goes_round)?;
    let last = wires.both(end, stops)?;
    let again = wires.both(states.last, bits.goes_round)?;
    Ok(LoopLeft {
        words,
        states,
        bits,
        last,
        again,
    })
}

/// Where an iteration ends with a round its finals are left in the variables.
fn set_loop_finals(
    wires: &mut Wires,
    registers: &Registers,
    variables: &mut Items<usize>,
    code: &ThreadCode,
    turn: &Block,
    times: &LoopTimes,
    words: &[Word],
    bits: &StageBits,
    end: usize,
) -> Result<(), AllocError>
    ensures shows { OnOk result (SetsLoopFinals wires.old.signals wires.new.signals code.now registers.now turn.now times.now words.now bits.now end
        variables.old variables.new turn.now.finals (length turn.now.finals)) }
    ensures wired { OnOk result (SetsFinalLinks wires.old.signals wires.new.signals code.now.variables registers.now words.now (bits.now.is_last) end variables.old variables.new) }
{
    let ends = wires.both(end, bits.is_last)?;
    let at = RoundPhase {
        begun: times.stages.saturating_sub(1),
        phase: times.interval.saturating_sub(1),
    };
    for last in turn.finals.as_slice() {
        set_loop_final(
            wires, registers, variables, code, turn, times, words, at, last, ends,
        )?;
    }
    Ok(())
}

/// Where a bit is set a variable gets what the oldest iteration leaves there.
fn set_loop_final(
    wires: &mut Wires,
    registers: &Registers,
    variables: &mut Items<usize>,
    code: &ThreadCode,
    turn: &Block,
    times: &LoopTimes,
    words: &[Word],
    at: RoundPhase,
    last: &Final,
    ends: usize,
) -> Result<(), AllocError>
    ensures shows { OnOk result (SetsLoopFinal wires.old.signals wires.new.signals code.now registers.now turn.now times.now words.now at ends
        variables.old variables.new last.now) }
    ensures wired { OnOk result (SetsFinalLinks wires.old.signals wires.new.signals code.now.variables registers.now words.now ends ends variables.old variables.new) }
{
    let types = code.variables.as_slice();
    let number = last.variable as usize;
    let Some(ty) = type_at(types, number) else {
        return Ok(());
    };
    let word = operand_ahead(
        wires,
        registers,
        types,
        turn,
        times,
        words,
        at,
        0,
        &last.value,
    )?;
    let own = wires.converted(word, ty)?;
    set_next(wires, variables, number, own.width, ends, own.place)
}

/// A write of a local array in the phase of its operation, where the iteration runs that is in its stage.
pub fn write_in(
    wires: &mut Wires,
    registers: &Registers,
    code: &ThreadCode,
    turn: &Block,
    times: &LoopTimes,
    words: &[Word],
    bits: &StageBits,
    states: &LoopStates,
    time: OperationTime,
    array: usize,
    index: &Operand,
    value: &Operand,
) -> Result<LoopWrite, AllocError>
    ensures shows { IfOk result (ShowsWrite wires.old.signals wires.new.signals code.now registers.now turn.now times.now words.now bits.now states.now time array
        index.now value.now) }
    ensures wired { IfOk result (IsWriteAdded wires.old.signals wires.new.signals code.now.variables registers.now times.now words.now bits.now states.now (operand_type index.now)
        (operand_type value.now)) }
{
    let types = code.variables.as_slice();
    let rounds = states.rounds.as_slice();
    let index = operand_in(
        wires, registers, types, turn, times, words, rounds, time, index,
    )?;
    let value = operand_in(
        wires, registers, types, turn, times, words, rounds, time, value,
    )?;
    let runs = bits.stage(time.stage, states.never);
    let condition = wires.both(states.phase(time.phase), runs)?;
    Ok(LoopWrite {
        array,
        condition,
        index,
        value,
    })
}
