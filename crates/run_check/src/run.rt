// One run of a program, and what it shows.
ghost use Rattle.std.specs.Prelude.{◌≡◌, ◌++◌, ◌∷◌, [], ⊤, true, length, IfOk, MatchOption};
ghost use Rattle.race_check.specs.Access.{touches_of};
ghost use Rattle.run_check.specs.Race.{IsFound};
ghost use Rattle.c_program.specs.Plain.{program_of};
ghost use Rattle.c_state.specs.View.{state_of};
ghost use Rattle.turns.specs.Turns.{threads_of};
ghost use Rattle.run_check.specs.Run.{IsRun, IsNotedAs, IsAdvanced, IsNext, IsStopped, reason_of};
ghost use Rattle.run_check.specs.Verdict.{IsReason, IsVerdict};

use crate::class::{Class, next_class, released_by};
use crate::clocks::{Stamp, clock_of};
use crate::known::{Known, Note};
use crate::race::{FoundRace, race_behind, turns_before};
use c_interpreter::step::{Stepped, step};
use c_program::tree::Program;
use c_state::state::{State, start};
use race_check::access::Access;
use race_check::footprint::footprint;
use std::alloc::{AllocError, Global};
use thread_semantics::UndefinedCause;
use turns::Turn;

/// Why a run shows nothing.
#[derive(Clone, Copy)]
pub enum Reason {
    /// So many steps were not enough, or there are more of them, or of threads, than 32 bits count: main hasn't returned.
    TooFewSteps,
    /// Main hasn't returned, and each thread is blocked.
    Deadlock,
    /// Two acts on one mutex are not ordered: which comes first may tell.
    MutexLocked,
    /// A wait at a barrier is not ordered behind the last act there that set it up or let threads go, as where more threads
    /// wait there than its count: which of them meet may tell.
    BarrierWaited,
    /// Two steps that depend on one another are not ordered: another interleaving may take them the other way round.
    Unordered,
}

/// What one run of a program shows.
#[derive(Drop)]
pub enum RunVerdict {
    /// Main returned after so many steps, and the program is good. One output: any two prints are ordered too, so that each
    /// interleaving in which main returns prints what this run prints; else another one may print otherwise.
    Good {
        steps: u32,
        one_output: bool,
    },
    /// Some interleaving races.
    Race(FoundRace),
    /// Behind these turns the next step of a thread is undefined; the offset of the statement, operand or closing brace,
    /// and the first cause.
    Undefined {
        turns: Vec<Turn>,
        thread: u32,
        offset: u32,
        cause: UndefinedCause,
    },
    /// After so many steps.
    Unknown {
        steps: u32,
        reason: Reason,
    },
}

/// A run under way: the state, what is kept of its steps, the turns taken and how many steps they are, and the thread
/// whose turn it is.
#[derive(Drop)]
pub struct Run<'p> {
    pub state: State<'p>,
    pub known: Known,
    pub turns: Vec<Turn>,
    pub steps: u32,
    pub thread: u32,
}

/// What the next step of a thread comes to.
#[derive(Clone, Copy)]
pub enum Progress {
    Stepped,
    Blocked,
    Undefined {
        thread: u32,
        offset: u32,
        cause: UndefinedCause,
    },
    /// The step, of this class, depends on one that doesn't happen before it: an access of this number, or an act.
    Unordered {
        thread: u32,
        other: Stamp,
        class: Class,
    },
    /// There is no place to keep the step.
    NoRoom,
}

/// The most steps of a turn.
const MOST_OF_TURN: u32 = 1_000_000;

/// One more step of a thread.
#[tactic(auto, using(crate::proofs::Turns::step_joined, crate::proofs::Turns::step_behind, crate::proofs::Turns::step_alone))]
fn push_step(turns: &mut Vec<Turn>, thread: u32) -> Result<(), AllocError>
    ensures { IfOk result (λ _. threads_of turns.new.items ≡ threads_of turns.old.items ++ thread ∷ []) }
{
    let Some(last) = turns.pop() else {
        turns.push(Turn { thread, steps: 1 })?;
        return Ok(());
    };
    if last.thread == thread && last.steps < MOST_OF_TURN {
        turns.push(Turn {
            thread,
            steps: last.steps + 1,
        })?;
        return Ok(());
    }
    turns.push(last)?;
    turns.push(Turn { thread, steps: 1 })?;
    Ok(())
}

/// Keeps a step that a run has taken, where it happens behind all steps on which it depends.
fn note_step(
    run: &mut Run,
    thread: u32,
    class: Class,
    accesses: &[Access],
    released: &[u32],
) -> Result<Note, AllocError>
    ensures { IfOk result (IsNotedAs run.old run.new thread class (touches_of accesses.now) released.now) }
{
    let ended = run.state.ended;
    match run.known.note(thread, class, accesses, released, ended)? {
        Note::Kept => {
            let Some(steps) = run.steps.checked_add(1) else {
                return Ok(Note::NoRoom);
            };
            push_step(&mut run.turns, thread)?;
            run.steps = steps;
            run.thread = thread;
            Ok(Note::Kept)
        }
        Note::Unordered => Ok(Note::Unordered),
        Note::NoRoom => Ok(Note::NoRoom),
    }
}

/// The next step of a thread.
fn advance<'p>(
    alloc: Global,
    program: &'p Program,
    run: &mut Run<'p>,
    thread: u32,
) -> Result<Progress, AllocError>
    ensures { IfOk result (IsAdvanced (program_of program.now) run.old run.new thread) }
{
    let class = next_class(alloc, program, &run.state, thread)?;
    let accesses = footprint(alloc, program, &run.state, thread as usize)?;
    let released = released_by(alloc, &run.state, thread, class)?;
    match step(alloc, program, &mut run.state, thread)? {
        Stepped::Blocked(_) => Ok(Progress::Blocked),
        Stepped::Undefined { offset, cause } => {
            Ok(Progress::Undefined {
                thread,
                offset,
                cause,
            })
        }
        Stepped::Stepped => {
            match note_step(run, thread, class, accesses.as_slice(), &released)? {
                Note::Kept => Ok(Progress::Stepped),
                Note::NoRoom => Ok(Progress::NoRoom),
                Note::Unordered => {
                    Ok(Progress::Unordered {
                        thread,
                        other: run.known.unordered(thread, accesses.as_slice()),
                        class,
                    })
                }
            }
        }
    }
}

/// How many thread ids there are, where 32 bits tell.
fn thread_count(state: &State) -> Option<u32>
    ensures { MatchOption result ⊤ (λ n. n ≡ length (state_of state.now).slots) }
{
    let count = state.slots.len();
    if count <= 4_294_967_295 {
        Some(count as u32)
    } else {
        None
    }
}

/// The next step of the first thread that isn't blocked.
#[tactic(auto, using(crate::proofs::Advancing::next_of))]
fn advance_first<'p>(
    alloc: Global,
    program: &'p Program,
    run: &mut Run<'p>,
) -> Result<Progress, AllocError>
    ensures { IfOk result (IsNext (program_of program.now) run.old run.new) }
{
    let Some(threads) = thread_count(&run.state) else {
        return Ok(Progress::NoRoom);
    };
    for thread in 0..threads {
        match advance(alloc, program, run, thread)? {
            Progress::Blocked => {}
            other => return Ok(other),
        }
    }
    Ok(Progress::Blocked)
}

/// The next step of the run: that of the thread whose turn it is, until it is blocked.
fn advance_next<'p>(
    alloc: Global,
    program: &'p Program,
    run: &mut Run<'p>,
) -> Result<Progress, AllocError>
    ensures { IfOk result (IsNext (program_of program.now) run.old run.new) }
{
    let thread = run.thread;
    match advance(alloc, program, run, thread)? {
        Progress::Blocked => advance_first(alloc, program, run),
        other => Ok(other),
    }
}

/// The run at its start.
fn begin<'p>(alloc: Global, program: &'p Program) -> Result<Run<'p>, AllocError>
    ensures { IfOk result (λ run. IsRun (program_of program.now) run × (run.steps ≡ 0)) }
{
    let state = start(alloc, program)?;
    let known = Known::new(alloc, &state)?;
    Ok(Run {
        state,
        known,
        turns: Vec::new(alloc),
        steps: 0,
        thread: 0,
    })
}

/// The clock of a thread before a step of it, on a run by these turns.
fn clock_before(
    alloc: Global,
    program: &Program,
    turns: &[Turn],
    other: Stamp,
) -> Result<Vec<u32>, AllocError> {
    let mut run = begin(alloc, program)?;
    for turn in turns {
        for _ in 0..turn.steps {
            if turn.thread == other.thread && run.known.is_next(other) {
                return Vec::from_slice(alloc, clock_of(&run.known.clocks, other.thread));
            }
            advance(alloc, program, &mut run, turn.thread)?;
        }
    }
    Ok(Vec::new(alloc))
}

/// The race behind the next step of a thread and an access that doesn't happen before it, where there is one: it stands
/// behind all steps that happen before either.
fn race_of(
    alloc: Global,
    program: &Program,
    run: &Run,
    thread: u32,
    other: Stamp,
) -> Result<Option<FoundRace>, AllocError>
    ensures { IfOk result (λ found. MatchOption found ⊤ (IsFound (program_of program.now))) }
{
    if other.number == 0 {
        return Ok(None);
    }
    let before = clock_before(alloc, program, &run.turns, other)?;
    let clock = clock_of(&run.known.clocks, thread);
    let turns = turns_before(alloc, &run.turns, &before, clock)?;
    race_behind(alloc, program, turns)
}

/// Why a run shows nothing that has come to an unordered step.
fn reason_of(class: Class) -> Reason
    ensures { result ≡ reason_of class }
{
    match class {
        Class::UsesMutex(_) => Reason::MutexLocked,
        Class::Waits(_) => Reason::BarrierWaited,
        Class::Plain => Reason::Unordered,
        Class::Prints => Reason::Unordered,
        Class::Creates(_) => Reason::Unordered,
        Class::Joins(_) => Reason::Unordered,
        Class::SetsBarrier(_) => Reason::Unordered,
    }
}

/// What a run shows that has come to an unordered step.
fn unordered(
    alloc: Global,
    program: &Program,
    run: &Run,
    thread: u32,
    other: Stamp,
    class: Class,
) -> Result<RunVerdict, AllocError>
    ensures { IfOk result (λ v. IsReason (program_of program.now) run.now.steps (reason_of class) → IsVerdict (program_of program.now) v) }
{
    match race_of(alloc, program, run, thread, other)? {
        Some(race) => Ok(RunVerdict::Race(race)),
        None => Ok(RunVerdict::Unknown {
            steps: run.steps,
            reason: reason_of(class),
        }),
    }
}

/// What a run shows by a step that isn't taken.
fn stopped(
    alloc: Global,
    program: &Program,
    run: Run,
    progress: Progress,
) -> Result<RunVerdict, AllocError>
    ensures { IfOk result (λ v. IsStopped (program_of program.now) run.entry progress → IsVerdict (program_of program.now) v) }
{
    match progress {
        Progress::Undefined {
            thread,
            offset,
            cause,
        } => {
            Ok(RunVerdict::Undefined {
                turns: run.turns,
                thread,
                offset,
                cause,
            })
        }
        Progress::Blocked => {
            Ok(RunVerdict::Unknown {
                steps: run.steps,
                reason: Reason::Deadlock,
            })
        }
        Progress::Unordered {
            thread,
            other,
            class,
        } => unordered(alloc, program, &run, thread, other, class),
        Progress::NoRoom => {
            Ok(RunVerdict::Unknown {
                steps: run.steps,
                reason: Reason::TooFewSteps,
            })
        }
        Progress::Stepped => {
            Ok(RunVerdict::Unknown {
                steps: run.steps,
                reason: Reason::TooFewSteps,
            })
        }
    }
}

/// Runs a program once, each thread as long as it can go on, for so many steps at most, and says what the run shows.
pub fn check_run(alloc: Global, program: &Program, most: u32) -> Result<RunVerdict, AllocError>
    ensures { IfOk result (IsVerdict (program_of program.now)) }
{
    let mut run = begin(alloc, program)?;
    for _ in 0..most {
        match advance_next(alloc, program, &mut run)? {
            Progress::Stepped => {
                if run.state.ended {
                    return Ok(RunVerdict::Good {
                        steps: run.steps,
                        one_output: run.known.one_output,
                    });
                }
            }
            other => return stopped(alloc, program, run, other),
        }
    }
    Ok(RunVerdict::Unknown {
        steps: run.steps,
        reason: Reason::TooFewSteps,
    })
}
