// The operand of an operation in each round of a loop.

ghost use Rattle.std.specs.Prelude.{◌≡◌, ◌+◌, ◌-◌, ◌^◌, ◌<◌, ◌≤◌, IfOk};
ghost use Rattle.thread_promise.specs.Types.{operand_type};
ghost use Rattle.loop_datapath.specs.Ahead.{source_behind, reach_of, ShowsFurther, ShowsOperandIn};
ghost use Rattle.loop_datapath.specs.Wired.{IsWordIn, IsFurther};

use crate::operands::{last_final, operand_ahead, operand_type};
use crate::times::{LoopTimes, OperationTime, RoundPhase};
use block_datapath::registers::{Registers, place_at};
use block_ir::block::Block;
use block_ir::operand::{Operand, Source};
use hls_ints::CType;
use operator_wires::wires::Wires;
use operator_wires::words::Word;
use std::alloc::AllocError;

/// What an operand of the iteration in a stage is, in one phase of each round: a conditional for each round in which it is
/// made of something else than in those before. Of each round a bit tells whether it has begun.
pub fn operand_in(
    wires: &mut Wires,
    registers: &Registers,
    types: &[CType],
    turn: &Block,
    times: &LoopTimes,
    words: &[Word],
    rounds: &[usize],
    time: OperationTime,
    operand: &Operand,
) -> Result<Word, AllocError>
    ensures shows { IfOk result (ShowsOperandIn wires.old.signals wires.new.signals registers.now types.now turn.now times.now words.now rounds.now
        time.stage time.phase operand.now) }
    ensures wired { IfOk result (IsWordIn wires.old.signals wires.new.signals types.now registers.now words.now rounds.now times.now.stages (operand_type operand.now)) }
{
    let at = RoundPhase {
        begun: time.stage,
        phase: time.phase,
    };
    let first = operand_ahead(wires, registers, types, turn, times, words, at, 0, operand)?;
    let mut place = first.place;
    for depth in 0..reach_in(turn, times, time, operand.source) {
        let at = RoundPhase {
            begun: time.stage + depth + 1,
            phase: time.phase,
        };
        place = further_place(
            wires,
            registers,
            types,
            turn,
            times,
            words,
            rounds,
            at,
            depth + 1,
            operand,
            place,
        )?;
    }
    Ok(Word::of_type(place, operand_type(operand)))
}

/// The same where so many rounds have begun, for the iteration that is `depth` behind the oldest one; in the rounds before it is
/// as this place shows.
fn further_place(
    wires: &mut Wires,
    registers: &Registers,
    types: &[CType],
    turn: &Block,
    times: &LoopTimes,
    words: &[Word],
    rounds: &[usize],
    at: RoundPhase,
    depth: u32,
    operand: &Operand,
    place: usize,
) -> Result<usize, AllocError>
    ensures shows { IfOk result (ShowsFurther wires.old.signals wires.new.signals registers.now types.now turn.now times.now words.now rounds.now
        at depth operand.now place) }
    ensures wired { IfOk result (IsFurther wires.old.signals wires.new.signals types.now registers.now words.now rounds.now at.begun (operand_type operand.now) place) }
{
    let later = operand_ahead(
        wires, registers, types, turn, times, words, at, depth, operand,
    )?;
    let round = place_at(rounds, at.begun as usize);
    let width = u64::from(operand_type(operand).bits());
    wires.choice(width, round, later.place, place)
}

/// How many rounds more can make a difference to a source.
fn reach_in(turn: &Block, times: &LoopTimes, time: OperationTime, source: Source) -> u32
    ensures value { result ≡ reach_of turn.now.finals (times.now.stages - 1 - time.stage) source }
    ensures within { result ≤ times.now.stages - 1 - time.stage }
    ensures room { time.stage + result < 2 ^ 32 }
{
    let most = times.stages.saturating_sub(1).saturating_sub(time.stage);
    reach_of(turn, source, most)
}

/// How many iterations back, `most` at most, the source still changes with how many there are.
fn reach_of(turn: &Block, source: Source, most: u32) -> u32
    ensures value { result ≡ reach_of turn.now.finals most source }
    ensures within { result ≤ most }
{
    if most == 0 {
        return 0;
    }
    match source_behind(turn, source) {
        Some(before) => 1 + reach_of(turn, before, most - 1),
        None => 0,
    }
}

/// What a source is made of in the iteration before, if it is a variable in which an iteration leaves something.
fn source_behind(turn: &Block, source: Source) -> Option<Source>
    ensures { result ≡ source_behind turn.now.finals source }
{
    match source {
        Source::Variable(number, _) => {
            let last = last_final(turn.finals.as_slice(), number as usize)?;
            Some(last.value.source)
        }
        _ => None,
    }
}
