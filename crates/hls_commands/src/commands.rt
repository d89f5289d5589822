// What each command owes.
ghost use Rattle.std.specs.Prelude.{◌≡◌, ◌≤◌, None, Some, map, string_bytes, IfOk, IfErr};
ghost use Rattle.hls_io.specs.Causes.{Rose};
ghost use Rattle.hls_words.specs.Line.{IsInRange, task_of};
ghost use Rattle.c_program.specs.Plain.{program_of};
ghost use Rattle.c_program.specs.Weight.{thread_count};
ghost use Rattle.c_accepted.specs.Profile.{IsAccepted};
ghost use Rattle.hls_commands.specs.Answers.{Gave, IsBuilt, IsPlain, IsStepped, IsWalked, Owes, RunsAs, run_status, status_of};
ghost use Rattle.hls_commands.specs.Inside.{AnswersStop, StopsBy, due_of, line_bytes, refused, stop_of};
ghost use Rattle.hls_commands.specs.declared.commands.Stop.TheVariants.{Memory};
ghost use Rattle.hls_compile.specs.Compiled.{IsCompiled};
ghost use Rattle.hls_compile.specs.Plans.{ArePlans};
ghost use Rattle.cycle_sim.specs.declared.sim.OpenError.TheVariants as causes;

use crate::answer::{Answer, Line, Out};
use crate::checks::{check, check_run};
use crate::generated::generate;
use crate::reports::report_hardware;
use crate::runs::{replay_journal, run_workers};
use crate::sims::simulate;
use c_interpreter::walk::{WalkEnd as Ends, walk};
use c_profile::{Accepted, ProfileError, Refusal, accept};
use c_program::threads::thread_count;
use cycle_sim::run::{Ran, run};
use cycle_sim::sim::OpenError;
use hls_compile::{CompileError, Compiled, compile};
use hls_io::{Bytes, ReadAllError, Source, read_all};
use hls_status::lines::{
    MEMORY, READ_FAULT, USAGE, built_line, cycles_line, refusal_line, walk_line,
};
use hls_status::status::{Status, WalkEnd};
use hls_words::{Task, WordsError, parse};
use run_command::Gate;
use sqlite_items::Items;
use std::alloc::{AllocError, Global};
use std::sync::Wait;
use std::thread::Threads;
use thiserror::Error;
use turns::Turn;
use vcd_trace::trace::trace;

/// Why a command stops before it has an answer of its own.
#[derive(Clone, Copy, Debug, Error)]
pub enum Stop {
    #[error("a read failed")]
    ReadFault,
    #[error("the text is refused")]
    Refused(Refusal),
    #[error("out of memory")]
    Memory,
}

impl From<AllocError> for Stop {
    ghost from_gives = { λ _ e. e ≡ Memory };

    fn from(_: AllocError) -> Self {
        Stop::Memory
    }
}

/// The most bytes of a text.
const MOST_BYTES: usize = 65_536;

/// Nothing for out, and a line for err.
pub fn plain(alloc: Global, status: Status, line: Line) -> Answer
    ensures status { result.status ≡ status }
    ensures plain { IsPlain (due_of result) (line_bytes line) }
{
    Answer {
        status,
        text: Bytes::new(alloc),
        journal: Items::new(alloc),
        out: Out::Nothing,
        line,
    }
}

/// Reads the text to its end.
pub fn text_read<S: Source>(alloc: Global, source: &mut S) -> Result<Bytes, Stop>
    ensures ok { IfOk result (Gave (S.left source.old)) }
    ensures stop { IfErr result (StopsBy None (S.left source.old) (Rose (S.faults source.old) (S.faults source.new))) }
    ensures later { S.faults source.old ≤ S.faults source.new }
{
    match read_all(alloc, source, MOST_BYTES) {
        Ok(text) => Ok(text),
        Err(ReadAllError::TooLong) => Err(Stop::Refused(Refusal::TooLong)),
        Err(ReadAllError::ReadFault) => Err(Stop::ReadFault),
        Err(ReadAllError::Mem) => Err(Stop::Memory),
    }
}

/// Why a text has no Verilog.
pub fn stop_of(error: CompileError) -> Stop
    ensures { result ≡ stop_of error }
{
    match error {
        CompileError::Refused(refusal) => Stop::Refused(refusal),
        CompileError::Memory => Stop::Memory,
    }
}

/// Reads the text and compiles it.
#[tactic(auto, using(crate::proofs::RefusalLemmas::stops_build))]
pub fn compiled<R: Threads + Sync, S: Source>(
    rt: &R,
    alloc: Global,
    source: &mut S,
    jobs: u32,
) -> Result<Compiled, Stop>
    ensures ok { IfOk result (λ c. (text : _) × Gave (S.left source.old) text × IsCompiled text (program_of c.program) c.weight c.net c.text) }
    ensures plans { IfOk result (λ c. ArePlans (program_of c.program) c.net c.plans) }
    ensures stop { IfErr result (StopsBy (Some (Task.Build jobs)) (S.left source.old) (Rose (S.faults source.old) (S.faults source.new))) }
    ensures later { S.faults source.old ≤ S.faults source.new }
{
    let text = text_read(alloc, source)?;
    match compile(rt, alloc, text.as_slice(), jobs) {
        Ok(compiled) => Ok(compiled),
        Err(error) => Err(stop_of(error)),
    }
}

fn build<R: Threads + Sync, S: Source>(
    rt: &R,
    alloc: Global,
    source: &mut S,
    jobs: u32,
) -> Result<Answer, Stop>
    ensures ok { IfOk result (λ a. (a.status ≡ Status.Ok) × IsBuilt (S.left source.old) (due_of a)) }
    ensures stop { IfErr result (StopsBy (Some (Task.Build jobs)) (S.left source.old) (Rose (S.faults source.old) (S.faults source.new))) }
    ensures later { S.faults source.old ≤ S.faults source.new }
{
    let made = compiled(rt, alloc, source, jobs)?;
    let threads = thread_count(&made.program);
    let line = built_line(alloc, threads, made.weight, made.text.len())?;
    Ok(Answer {
        status: Status::Ok,
        text: made.text,
        journal: Items::new(alloc),
        out: Out::Text,
        line: Line::Made(line),
    })
}

/// Why a text has no program.
pub fn refused(error: ProfileError) -> Stop
    ensures { result ≡ refused error }
{
    match error {
        ProfileError::Refused(refusal) => Stop::Refused(refusal),
        ProfileError::Memory => Stop::Memory,
    }
}

/// Reads the text, of which the program is within all limits.
fn accepted<S: Source>(alloc: Global, source: &mut S) -> Result<Accepted, Stop>
    ensures ok { IfOk result (λ a. (text : _) × Gave (S.left source.old) text × IsAccepted text (program_of a.program) a.weight) }
    ensures stop { IfErr result (StopsBy None (S.left source.old) (Rose (S.faults source.old) (S.faults source.new))) }
    ensures later { S.faults source.old ≤ S.faults source.new }
{
    let text = text_read(alloc, source)?;
    match accept(alloc, text.as_slice()) {
        Ok(accepted) => Ok(accepted),
        Err(error) => Err(refused(error)),
    }
}

/// The status of a walk.
fn status_of(end: Ends) -> Status
    ensures { result ≡ status_of end }
{
    match end {
        Ends::Ended { .. } => Status::Ok,
        Ends::Listed { steps } => Status::Walked(WalkEnd::Listed { steps }),
        Ends::Blocked {
            index,
            thread,
            cause,
        } => Status::Walked(WalkEnd::Blocked {
            index,
            thread,
            cause,
        }),
        Ends::Undefined {
            index,
            offset,
            cause,
        } => Status::Walked(WalkEnd::Undefined {
            index,
            offset,
            cause,
        }),
    }
}

/// Takes steps of the listed threads.
fn walk_turns<S: Source>(alloc: Global, source: &mut S, turns: &[Turn]) -> Result<Answer, Stop>
    ensures ok { IfOk result (λ a. IsWalked turns.now (S.left source.old) (due_of a) a.status) }
    ensures stop { IfErr result (StopsBy None (S.left source.old) (Rose (S.faults source.old) (S.faults source.new))) }
    ensures later { S.faults source.old ≤ S.faults source.new }
{
    let accepted = accepted(alloc, source)?;
    let walked = walk(alloc, &accepted.program, turns)?;
    let line = walk_line(alloc, walked.end)?;
    Ok(Answer {
        status: status_of(walked.end),
        text: Bytes::new(alloc),
        journal: Items::new(alloc),
        out: Out::Printed(walked.output),
        line: Line::Made(line),
    })
}

/// What an error is where none but want of memory can come.
fn memory_alone(error: OpenError) -> AllocError
    requires { error ≡ causes.Memory }
{
    match error {
        OpenError::Memory => AllocError,
        OpenError::Loop { .. } => unreachable!(),
    }
}

/// Runs a net, for what it writes or for its dump. Each that a text is compiled to has a simulator.
pub fn ran_as(alloc: Global, built: &Compiled, cycles: u32, vcd: bool) -> Result<Ran, AllocError>
    requires { (text : _) × IsCompiled text (program_of built.now.program) built.now.weight built.now.net built.now.text }
    ensures { IfOk result (λ r. RunsAs vcd built.now.net.modules (thread_count (program_of built.now.program)) cycles r.cycles r.is_done r.printed) }
{
    let modules = built.net.modules.as_slice();
    if vcd {
        match trace(alloc, modules, cycles) {
            Ok(traced) => Ok(Ran {
                cycles: traced.cycles,
                is_done: traced.is_done,
                printed: traced.text,
            }),
            Err(error) => Err(memory_alone(error)),
        }
    } else {
        match run(alloc, modules, cycles) {
            Ok(ran) => Ok(ran),
            Err(error) => Err(memory_alone(error)),
        }
    }
}

/// The status of a run.
pub fn run_status(ran: &Ran) -> Status
    ensures { result ≡ run_status ran.now.is_done ran.now.cycles }
{
    if ran.is_done {
        Status::Ok
    } else {
        Status::Cycles { cycles: ran.cycles }
    }
}

/// Runs the Verilog for so many cycles at most, for what it writes or for its dump.
#[tactic(auto, using(crate::proofs::RefusalLemmas::stops_step))]
fn step<R: Threads + Sync, S: Source>(
    rt: &R,
    alloc: Global,
    source: &mut S,
    cycles: u32,
    vcd: bool,
) -> Result<Answer, Stop>
    ensures ok { IfOk result (λ a. IsStepped cycles vcd (S.left source.old) (due_of a) a.status) }
    ensures stop { IfErr result (StopsBy (Some (Task.Step cycles vcd)) (S.left source.old) (Rose (S.faults source.old) (S.faults source.new))) }
    ensures later { S.faults source.old ≤ S.faults source.new }
{
    let built = compiled(rt, alloc, source, 1)?;
    let ran = ran_as(alloc, &built, cycles, vcd)?;
    let line = cycles_line(alloc, ran.is_done, ran.cycles)?;
    Ok(Answer {
        status: run_status(&ran),
        text: built.text,
        journal: Items::new(alloc),
        out: Out::Printed(ran.printed),
        line: Line::Made(line),
    })
}

/// The answer to a stop; want of memory for its line has an answer of its own.
fn stopped(alloc: Global, stop: Stop) -> Answer
    ensures { AnswersStop stop (due_of result) }
{
    match stop {
        Stop::ReadFault => plain(alloc, Status::ReadFault, Line::Fixed(READ_FAULT)),
        Stop::Memory => plain(alloc, Status::Memory, Line::Fixed(MEMORY)),
        Stop::Refused(refusal) => match refusal_line(alloc, refusal) {
            Ok(line) => plain(alloc, Status::Refused(refusal), Line::Made(line)),
            Err(_) => plain(alloc, Status::Memory, Line::Fixed(MEMORY)),
        },
    }
}

/// All that is owed for a task whose numbers are in range, before a byte is written.
#[tactic(auto, using(crate::proofs::OwedAnswers::owed_steps))]
pub fn run_task<R: Threads + Wait + Sync, S: Source, G: Gate + Sync>(
    rt: &R,
    alloc: Global,
    task: Task,
    source: &mut S,
    gate: &G,
) -> Answer
    requires { IsInRange task }
    ensures owes { Owes (Some task) (S.left source.old) (Rose (S.faults source.old) (S.faults source.new)) (due_of result) }
    ensures later { S.faults source.old ≤ S.faults source.new }
{
    let done = match task {
        Task::Build { jobs } => build(rt, alloc, source, jobs),
        Task::Step { cycles, vcd } => step(rt, alloc, source, cycles, vcd),
        Task::Run { entries, journal } => run_workers(rt, alloc, source, entries, journal, gate),
        Task::Replay => replay_journal(rt, alloc, source),
        Task::Walk(turns) => walk_turns(alloc, source, turns.as_slice()),
        Task::Check => check(alloc, source),
        Task::CheckRun { steps } => check_run(alloc, source, steps),
        Task::Sim { cycles } => simulate(alloc, source, cycles),
        Task::Gen {
            seed,
            threads,
            size,
            cycles,
        } => generate(rt, alloc, seed, threads, size, cycles),
        Task::Report => report_hardware(rt, alloc, source),
    };
    match done {
        Ok(answer) => answer,
        Err(stop) => stopped(alloc, stop),
    }
}

/// All that the call owes for its words, before a byte is written.
pub fn answer<R: Threads + Wait + Sync, S: Source, G: Gate + Sync>(
    rt: &R,
    alloc: Global,
    words: &[String],
    source: &mut S,
    gate: &G,
) -> Answer
    ensures owes { Owes (task_of (map string_bytes words.now)) (S.left source.old) (Rose (S.faults source.old) (S.faults source.new)) (due_of result) }
    ensures later { S.faults source.old ≤ S.faults source.new }
{
    match parse(alloc, words) {
        Ok(task) => run_task(rt, alloc, task, source, gate),
        Err(WordsError::Usage) => plain(alloc, Status::Usage, Line::Fixed(USAGE)),
        Err(WordsError::Mem) => plain(alloc, Status::Memory, Line::Fixed(MEMORY)),
    }
}
