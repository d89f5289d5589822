// A walk along a list of thread numbers, each of which takes a step. The list is given by turns, in each of which one
// thread takes so many steps, and is never laid out.
ghost use Rattle.std.specs.Prelude.{◌≡◌, ◌+◌, ◌≤◌, ◌^◌, Some, slice_get, IfOk};
ghost use Rattle.c_program.specs.Plain.{program_of};
ghost use Rattle.turns.specs.Turns.{threads_of};
ghost use Rattle.c_state.specs.View.{state_of};
ghost use Rattle.c_interpreter.specs.Walk.{Numbers, IsAt, IsWalk, Lists, WalksOn};

use crate::step::{Stepped, step};
use c_program::tree::Program;
use c_state::state::{State, start};
use hls_io::Bytes;
use std::alloc::{AllocError, Global};
use thread_semantics::{BlockedCause, UndefinedCause};
use turns::Turn;

/// How a walk ends. Steps are counted from 0.
#[derive(Clone, Copy)]
pub enum WalkEnd {
    /// Main has returned after so many steps.
    Ended {
        steps: u128,
    },
    /// All listed steps are taken, so many, and main hasn't returned.
    Listed {
        steps: u128,
    },
    /// The step at that index of the list is blocked.
    Blocked {
        index: u128,
        thread: u32,
        cause: BlockedCause,
    },
    /// The step at that index of the list is undefined.
    Undefined {
        index: u128,
        offset: u32,
        cause: UndefinedCause,
    },
}

/// How a walk ends, and what was printed on it.
#[derive(Drop)]
pub struct Walked {
    pub end: WalkEnd,
    pub output: Bytes,
}

/// Takes the step at an index of the list; answers how the walk ends, where it ends there.
fn take_step<'p>(
    alloc: Global,
    program: &'p Program,
    s: &mut State<'p>,
    index: u128,
    thread: u32,
) -> Result<Option<WalkEnd>, AllocError>
    requires { index ≤ 2 ^ 127 }
    ensures { IfOk result (λ end. (list : Numbers) → IsAt (program_of program.now) list index (state_of s.old) → slice_get list index ≡ Some thread
        → WalksOn (program_of program.now) list (index + 1) (state_of s.new) end) }
{
    match step(alloc, program, s, thread)? {
        Stepped::Stepped => {
            if s.ended {
                Ok(Some(WalkEnd::Ended { steps: index + 1 }))
            } else {
                Ok(None)
            }
        }
        Stepped::Blocked(cause) => {
            Ok(Some(WalkEnd::Blocked {
                index,
                thread,
                cause,
            }))
        }
        Stepped::Undefined { offset, cause } => {
            Ok(Some(WalkEnd::Undefined {
                index,
                offset,
                cause,
            }))
        }
    }
}

/// Takes the steps of a turn, which stand in the list from that index on; answers how the walk ends, where it ends there.
fn take_turn<'p>(
    alloc: Global,
    program: &'p Program,
    s: &mut State<'p>,
    first: u128,
    turn: Turn,
) -> Result<Option<WalkEnd>, AllocError>
    requires { first ≤ 2 ^ 126 }
    ensures { IfOk result (λ end. (list : Numbers) → IsAt (program_of program.now) list first (state_of s.old) → Lists list first turn
        → WalksOn (program_of program.now) list (first + turn.steps) (state_of s.new) end) }
{
    for k in 0..turn.steps {
        match take_step(alloc, program, s, first + u128::from(k), turn.thread)? {
            Some(end) => return Ok(Some(end)),
            None => {}
        }
    }
    Ok(None)
}

/// Takes the steps of these turns from the start, until main has returned, a step isn't taken, or no turn is left.
pub fn walk(alloc: Global, program: &Program, turns: &[Turn]) -> Result<Walked, AllocError>
    ensures { IfOk result (λ w. IsWalk (program_of program.now) (threads_of turns.now) w.end w.output) }
{
    let mut s = start(alloc, program)?;
    let mut steps = 0u128;
    for turn in turns {
        match take_turn(alloc, program, &mut s, steps, *turn)? {
            Some(end) => {
                return Ok(Walked {
                    end,
                    output: s.output,
                });
            }
            None => steps += u128::from(turn.steps),
        }
    }
    Ok(Walked {
        end: WalkEnd::Listed { steps },
        output: s.output,
    })
}
