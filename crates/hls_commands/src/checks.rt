// Lock disciplines, and what one run shows.
ghost use Rattle.std.specs.Prelude.{◌≡◌, ◌≤◌, None, string_bytes, IfOk, IfErr};
ghost use Rattle.hls_io.specs.Causes.{Rose};
ghost use Rattle.hls_commands.specs.Answers.{IsListed, cause_of};
ghost use Rattle.hls_commands.specs.Inside.{CheckOwes, RunOwes, StopsBy, TellsIt, TellsRun, due_of};

use crate::answer::{Answer, Line, Out};
use crate::commands::{Stop, plain, refused, text_read};
use check_command::check::{Told, check_text};
use check_command::run::{RunTold, run_text};
use check_command::turn_list::listed;
use hls_io::{Bytes, Source};
use hls_status::lines::{
    disciplined_line, doubt_line, good_line, race_line, undefined_step_line, unknown_line,
};
use hls_status::status::{Status, UnknownCause};
use run_check::run::Reason;
use sqlite_items::Items;
use std::alloc::{AllocError, Global};

/// The answer that tells what was found.
fn found(alloc: Global, told: Told) -> Result<Answer, AllocError>
    ensures { IfOk result (λ a. TellsIt told (due_of a) a.status) }
{
    match told {
        Told::Disciplined { globals } => {
            let line = disciplined_line(alloc, globals)?;
            Ok(plain(alloc, Status::Ok, Line::Made(line)))
        }
        Told::Doubt { offset, name } => {
            let line = doubt_line(alloc, offset, name.as_str())?;
            Ok(plain(alloc, Status::Doubt { offset, name }, Line::Made(line)))
        }
    }
}

/// Says whether each global of the program has a discipline.
pub fn check<S: Source>(alloc: Global, source: &mut S) -> Result<Answer, Stop>
    ensures ok { IfOk result (λ a. CheckOwes (S.left source.old) (due_of a) a.status) }
    ensures stop { IfErr result (StopsBy None (S.left source.old) (Rose (S.faults source.old) (S.faults source.new))) }
    ensures later { S.faults source.old ≤ S.faults source.new }
{
    let text = text_read(alloc, source)?;
    match check_text(alloc, text.as_slice()) {
        Ok(told) => Ok(found(alloc, told)?),
        Err(error) => Err(refused(error)),
    }
}

/// Why a run shows nothing.
fn cause_of(reason: Reason) -> UnknownCause
    ensures { result ≡ cause_of reason }
{
    match reason {
        Reason::TooFewSteps => UnknownCause::TooFewSteps,
        Reason::Deadlock => UnknownCause::Deadlock,
        Reason::MutexLocked => UnknownCause::MutexLocked,
        Reason::BarrierWaited => UnknownCause::BarrierWaited,
        Reason::Unordered => UnknownCause::Unordered,
    }
}

/// A list of turns for out, and a line for err.
fn with_list(alloc: Global, status: Status, list: Bytes, line: String) -> Answer
    ensures status { result.status ≡ status }
    ensures lists { IsListed (due_of result) list (string_bytes line) }
{
    Answer {
        status,
        text: Bytes::new(alloc),
        journal: Items::new(alloc),
        out: Out::Printed(list),
        line: Line::Made(line),
    }
}

/// The answer that tells what a run showed.
fn shown(alloc: Global, told: RunTold) -> Result<Answer, AllocError>
    ensures { IfOk result (λ a. TellsRun told (due_of a) a.status) }
{
    match told {
        RunTold::Good { steps, one_output } => {
            let line = good_line(alloc, steps, one_output)?;
            Ok(plain(alloc, Status::Ok, Line::Made(line)))
        }
        RunTold::Race {
            turns,
            first,
            second,
            name,
        } => {
            let list = listed(alloc, &turns)?;
            let line = race_line(alloc, first, second, name.as_str())?;
            let status = Status::Race {
                first,
                second,
                name,
            };
            Ok(with_list(alloc, status, list, line))
        }
        RunTold::Undefined {
            turns,
            offset,
            cause,
        } => {
            let list = listed(alloc, &turns)?;
            let line = undefined_step_line(alloc, offset, cause)?;
            Ok(with_list(alloc, Status::UndefinedStep { offset, cause }, list, line))
        }
        RunTold::Unknown { steps, reason } => {
            let cause = cause_of(reason);
            let line = unknown_line(alloc, steps, cause)?;
            Ok(plain(alloc, Status::Unknown { steps, cause }, Line::Made(line)))
        }
    }
}

/// Says what one run of at most so many steps shows of the program.
pub fn check_run<S: Source>(alloc: Global, source: &mut S, steps: u32) -> Result<Answer, Stop>
    ensures ok { IfOk result (λ a. RunOwes (S.left source.old) (due_of a) a.status) }
    ensures stop { IfErr result (StopsBy None (S.left source.old) (Rose (S.faults source.old) (S.faults source.new))) }
    ensures later { S.faults source.old ≤ S.faults source.new }
{
    let text = text_read(alloc, source)?;
    match run_text(alloc, text.as_slice(), steps) {
        Ok(told) => Ok(shown(alloc, told)?),
        Err(error) => Err(refused(error)),
    }
}
