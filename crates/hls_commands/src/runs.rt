// Runs by workers, and journals done again.
ghost use Rattle.std.specs.Prelude.{◌≡◌, ◌≤◌, Some, drop, length, IfOk, IfErr};
ghost use Rattle.hls_io.specs.Causes.{Rose};
ghost use Rattle.hls_words.specs.declared.task.Task.TheVariants.{Replay, Run};
ghost use Rattle.c_program.specs.Plain.{program_of};
ghost use Rattle.c_program.specs.Weight.{thread_count};
ghost use Rattle.hls_compile.specs.Compiled.{IsCompiled};
ghost use Rattle.hls_commands.specs.Answers.{Gave, GaveJournal, IsRunBy, most_replayed, verdict_status};
ghost use Rattle.hls_commands.specs.Inside.{IsAnswerOf, IsReplayOrBad, StopsBy, due_of};

use crate::answer::{Answer, Line, Out};
use crate::commands::{Stop, compiled, stop_of};
use c_profile::Refusal;
use c_program::threads::thread_count;
use hls_compile::{Compiled, compile};
use hls_io::{Bytes, ReadAllError, Source, read_all};
use hls_status::status::Status;
use journal_laws::verdict::Verdict;
use journal_text::text::{JournalText, parted};
use run_command::Gate;
use run_command::replay::{ReplayAnswer, replay_net};
use run_command::run::run_net;
use sqlite_items::Items;
use std::alloc::Global;
use std::sync::Wait;
use std::thread::Threads;

/// The most bytes of a text that begins with a journal.
const MOST_REPLAYED: usize = 16_777_216;

/// The status of a verdict.
fn verdict_status(verdict: Verdict) -> Status
    ensures { result ≡ verdict_status verdict }
{
    match verdict {
        Verdict::Done => Status::Ok,
        Verdict::Stuck => Status::Stuck,
        Verdict::Entries => Status::Entries,
    }
}

/// How many hardware threads the program of a net has.
#[tactic(auto, using(crate::proofs::RunLemmas::few_threads))]
fn threads_of(built: &Compiled) -> usize
    requires { (text : _) × IsCompiled text (program_of built.now.program) built.now.weight built.now.net built.now.text }
    ensures { result ≡ thread_count (program_of built.now.program) }
{
    thread_count(&built.program) as usize
}

/// Runs the Verilog by workers, for so many entries at most.
#[tactic(auto, using(crate::proofs::RefusalLemmas::stops_run))]
pub fn run_workers<R: Threads + Wait + Sync, S: Source, G: Gate + Sync>(
    rt: &R,
    alloc: Global,
    source: &mut S,
    entries: u32,
    journal: bool,
    gate: &G,
) -> Result<Answer, Stop>
    ensures ok { IfOk result (λ a. (v : _) × IsRunBy entries journal (S.left source.old) (due_of a) v × (a.status ≡ verdict_status v)) }
    ensures stop { IfErr result (StopsBy (Some (Run entries journal)) (S.left source.old) (Rose (S.faults source.old) (S.faults source.new))) }
    ensures later { S.faults source.old ≤ S.faults source.new }
{
    let built = compiled(rt, alloc, source, 1)?;
    let threads = threads_of(&built);
    let modules = built.net.modules.as_slice();
    let ran = run_net(rt, alloc, modules, threads, entries as usize, journal, gate)?;
    Ok(Answer {
        status: verdict_status(ran.verdict),
        text: built.text,
        journal: ran.journal,
        out: Out::Printed(ran.output),
        line: Line::Lines(ran.lines),
    })
}

/// Reads a text that may begin with a journal.
fn whole_read<S: Source>(alloc: Global, source: &mut S) -> Result<Bytes, Stop>
    ensures ok { IfOk result (λ whole. Gave (S.left source.old) whole × (length whole ≤ most_replayed)) }
    ensures stop { IfErr result (StopsBy (Some Replay) (S.left source.old) (Rose (S.faults source.old) (S.faults source.new))) }
    ensures later { S.faults source.old ≤ S.faults source.new }
{
    match read_all(alloc, source, MOST_REPLAYED) {
        Ok(whole) => Ok(whole),
        Err(ReadAllError::TooLong) => Err(Stop::Refused(Refusal::TooLong)),
        Err(ReadAllError::ReadFault) => Err(Stop::ReadFault),
        Err(ReadAllError::Mem) => Err(Stop::Memory),
    }
}

/// What stands behind a journal.
fn behind(whole: &Bytes, rest: usize) -> &[u8]
    requires { rest ≤ length whole.now }
    ensures { result.now ≡ drop rest whole.now }
{
    &whole.as_slice()[rest..]
}

/// A journal, and the net of the text behind it.
struct Given {
    journal: JournalText,
    built: Compiled,
}

/// Reads a journal, and compiles the text behind it.
#[tactic(auto, using(crate::proofs::RefusalLemmas::stops_replay))]
fn compiled_with_journal<R: Threads + Sync, S: Source>(
    rt: &R,
    alloc: Global,
    source: &mut S,
) -> Result<Given, Stop>
    ensures ok { IfOk result (λ g. (text : _) × GaveJournal (S.left source.old) g.journal.entries g.journal.bad text
        × IsCompiled text (program_of g.built.program) g.built.weight g.built.net g.built.text) }
    ensures stop { IfErr result (StopsBy (Some Replay) (S.left source.old) (Rose (S.faults source.old) (S.faults source.new))) }
    ensures later { S.faults source.old ≤ S.faults source.new }
{
    let whole = whole_read(alloc, source)?;
    let journal = parted(alloc, whole.as_slice())?;
    match compile(rt, alloc, behind(&whole, journal.rest), 1) {
        Ok(built) => Ok(Given { journal, built }),
        Err(error) => Err(stop_of(error)),
    }
}

/// The answer of a replay.
fn replay_answer(alloc: Global, text: Bytes, replay: ReplayAnswer) -> Answer
    ensures { IsAnswerOf text replay (due_of result) result.status }
{
    match replay {
        ReplayAnswer::Replayed {
            verdict,
            output,
            journal,
            line,
        } => Answer {
            status: verdict_status(verdict),
            text,
            journal,
            out: Out::Printed(output),
            line: Line::Made(line),
        },
        ReplayAnswer::BadEntry { index, line } => Answer {
            status: Status::BadEntry { index },
            text,
            journal: Items::new(alloc),
            out: Out::Nothing,
            line: Line::Made(line),
        },
    }
}

/// Does the journal that the text begins with again.
#[tactic(auto, using(crate::proofs::RunLemmas::replay_answers))]
pub fn replay_journal<R: Threads + Sync, S: Source>(
    rt: &R,
    alloc: Global,
    source: &mut S,
) -> Result<Answer, Stop>
    ensures ok { IfOk result (λ a. IsReplayOrBad (S.left source.old) (due_of a) a.status) }
    ensures stop { IfErr result (StopsBy (Some Replay) (S.left source.old) (Rose (S.faults source.old) (S.faults source.new))) }
    ensures later { S.faults source.old ≤ S.faults source.new }
{
    let Given { journal, built } = compiled_with_journal(rt, alloc, source)?;
    let threads = threads_of(&built);
    let modules = built.net.modules.as_slice();
    let replay = replay_net(alloc, modules, threads, journal.entries, journal.bad)?;
    Ok(replay_answer(alloc, built.text, replay))
}
