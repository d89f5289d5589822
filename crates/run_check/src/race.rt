// The race that stands behind two accesses of a run which are not ordered.
ghost use Rattle.std.specs.Prelude.{◌≡◌, true, ⊤, IfOk, MatchOption};
ghost use Rattle.c_program.specs.Plain.{program_of, statement_of};
ghost use Rattle.c_state.specs.View.{frame_of, state_of};
ghost use Rattle.run_check.specs.Offsets.{statement_offset, frame_offset, step_offset};
ghost use Rattle.run_check.specs.Race.{IsFound, IsTurnTaken, LeadsTo};

use crate::clocks::{number_at, zeros};
use c_evaluation::work::Item;
use c_interpreter::step::{Stepped, step};
use c_program::tree::{Program, Statement};
use c_state::state::{Frame, State, start};
use c_state::threads::{innermost, running};
use race_check::access::Location;
use race_check::race::races;
use std::alloc::{AllocError, Global};
use turns::Turn;

/// Two threads whose next steps race behind these turns, where these steps stand, and at which location they race.
#[derive(Drop)]
pub struct FoundRace {
    pub turns: Vec<Turn>,
    pub first: usize,
    pub second: usize,
    pub first_offset: u32,
    pub second_offset: u32,
    pub location: Location,
}

/// The steps of these turns of which one of two threads with these clocks has heard.
pub fn turns_before(
    alloc: Global,
    turns: &[Turn],
    first: &[u32],
    second: &[u32],
) -> Result<Vec<Turn>, AllocError> {
    let mut taken = zeros(alloc, first.len())?;
    let mut before = Vec::new(alloc);
    for turn in turns {
        let thread = turn.thread as usize;
        if thread < taken.len() {
            let most = number_at(first, thread).max(number_at(second, thread));
            let steps = turn.steps.min(most.saturating_sub(taken[thread]));
            taken[thread] = taken[thread].saturating_add(turn.steps);
            if steps > 0 {
                before.push(Turn {
                    thread: turn.thread,
                    steps,
                })?;
            }
        }
    }
    Ok(before)
}

/// Takes the steps of a turn; whether each was taken and main hasn't returned.
fn take_turn<'p>(
    alloc: Global,
    program: &'p Program,
    state: &mut State<'p>,
    turn: Turn,
) -> Result<bool, AllocError>
    ensures { IfOk result (λ taken. taken ≡ true → IsTurnTaken (program_of program.now) (state_of state.old) turn (state_of state.new)) }
{
    for index in 0..turn.steps {
        match step(alloc, program, state, turn.thread)? {
            Stepped::Stepped => {
                if state.ended {
                    return Ok(false);
                }
            }
            Stepped::Blocked(_) => return Ok(false),
            Stepped::Undefined { .. } => return Ok(false),
        }
    }
    Ok(true)
}

/// The state to which these turns lead; none where one of their steps isn't taken, or main returns.
fn replay<'p>(
    alloc: Global,
    program: &'p Program,
    turns: &[Turn],
) -> Result<Option<State<'p>>, AllocError>
    ensures { IfOk result (λ r. MatchOption r ⊤ (λ s. LeadsTo (program_of program.now) turns.now (state_of s))) }
{
    let mut state = start(alloc, program)?;
    for turn in turns {
        if !take_turn(alloc, program, &mut state, *turn)? {
            return Ok(None);
        }
    }
    Ok(Some(state))
}

fn offset_of_statement(statement: &Statement) -> u32
    ensures { result ≡ statement_offset (statement_of statement.now) }
{
    match statement {
        Statement::Declare(offset, _, _) => *offset,
        Statement::Assign(offset, _, _) => *offset,
        Statement::Update(offset, _, _, _, _) => *offset,
        Statement::Call(offset, _, _, _) => *offset,
        Statement::Keep(offset, _, _, _) => *offset,
        Statement::Test(offset, _) => *offset,
        Statement::Switch(offset, _, _, _) => *offset,
        Statement::Return(offset, _) => *offset,
        Statement::Print(offset, _, _) => *offset,
        Statement::Thread(offset, _) => *offset,
        _ => 0,
    }
}

/// Where the next step of a call stands: the offset of its statement, operand or closing brace.
fn offset_of_call(program: &Program, frame: &Frame) -> u32
    ensures { result ≡ frame_offset (program_of program.now) (frame_of frame.now) }
{
    match frame.work.front() {
        None => match program.functions.get(frame.function as usize) {
            Some(code) => code.end,
            None => 0,
        },
        Some(Item::Do(statement)) => offset_of_statement(statement),
        Some(Item::Perform(offset, _)) => *offset,
        _ => 0,
    }
}

/// Where the next step of a thread stands.
fn offset_of(program: &Program, state: &State, thread: usize) -> u32
    ensures { result ≡ step_offset (program_of program.now) (state_of state.now) thread }
{
    let Some(frames) = running(&state.slots, thread as u128) else {
        return 0;
    };
    match innermost(frames) {
        None => 0,
        Some(frame) => offset_of_call(program, frame),
    }
}

/// The first race of the state to which these turns lead, where there is one.
pub fn race_behind(
    alloc: Global,
    program: &Program,
    turns: Vec<Turn>,
) -> Result<Option<FoundRace>, AllocError>
    ensures { IfOk result (λ found. MatchOption found ⊤ (IsFound (program_of program.now))) }
{
    let Some(state) = replay(alloc, program, &turns)? else {
        return Ok(None);
    };
    let Some(race) = races(alloc, program, &state)? else {
        return Ok(None);
    };
    Ok(Some(FoundRace {
        turns,
        first: race.first,
        second: race.second,
        first_offset: offset_of(program, &state, race.first),
        second_offset: offset_of(program, &state, race.second),
        location: race.location,
    }))
}
