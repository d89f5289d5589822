// Verilog texts read and run.
ghost use Rattle.std.specs.Prelude.{◌≡◌, ◌≤◌, Some, length, string_bytes, IfOk, IfErr};
ghost use Rattle.hls_io.specs.Causes.{Rose};
ghost use Rattle.hls_status.specs.Lines.{loop_line, not_net_line};
ghost use Rattle.hls_words.specs.declared.task.Task.TheVariants.{Sim};
ghost use Rattle.hls_commands.specs.Answers.{IsPlain, most_simulated, run_status};
ghost use Rattle.hls_commands.specs.Inside.{IsPrinted, SimOwes, SimOwesFor, StopsBy, due_of};

use crate::answer::{Answer, Line, Out};
use crate::commands::{Stop, plain, run_status};
use cycle_sim::run::Ran;
use hls_io::{Bytes, ReadAllError, Source, read_all};
use hls_status::lines::{cycles_line, loop_line, not_net_line};
use hls_status::status::Status;
use sim_command::sim::{MOST_BYTES, SimError, sim};
use sqlite_items::Items;
use std::alloc::{AllocError, Global};

/// The answer to a text of which no net is read.
fn not_net(alloc: Global, offset: usize) -> Result<Answer, AllocError>
    ensures { IfOk result (λ a. (a.status ≡ Status.NotNet offset) × IsPlain (due_of a) (not_net_line offset)) }
{
    let line = not_net_line(alloc, offset)?;
    Ok(plain(alloc, Status::NotNet { offset }, Line::Made(line)))
}

/// The answer to a net of which this signal depends on itself.
fn looped(alloc: Global, signal: String) -> Result<Answer, AllocError>
    ensures { IfOk result (λ a. (a.status ≡ Status.Loop signal) × IsPlain (due_of a) (loop_line (string_bytes signal))) }
{
    let line = loop_line(alloc, signal.as_str())?;
    Ok(plain(alloc, Status::Loop { signal }, Line::Made(line)))
}

/// The answer to a net that ran.
fn printed(alloc: Global, ran: Ran) -> Result<Answer, AllocError>
    ensures { IfOk result (λ a. (a.status ≡ run_status ran.is_done ran.cycles) × IsPrinted ran (due_of a)) }
{
    let line = cycles_line(alloc, ran.is_done, ran.cycles)?;
    Ok(Answer {
        status: run_status(&ran),
        text: Bytes::new(alloc),
        journal: Items::new(alloc),
        out: Out::Printed(ran.printed),
        line: Line::Made(line),
    })
}

/// Runs the net that a text spells, for so many cycles at most.
fn simulated(alloc: Global, text: &[u8], cycles: u32) -> Result<Answer, AllocError>
    requires { length text.now ≤ most_simulated }
    ensures { IfOk result (λ a. SimOwesFor cycles text.now (due_of a) a.status) }
{
    match sim(alloc, text, cycles) {
        Ok(ran) => printed(alloc, ran),
        Err(SimError::NotNet { offset }) => not_net(alloc, offset),
        Err(SimError::Loop { path }) => looped(alloc, path),
        Err(SimError::Memory) => Err(AllocError),
    }
}

/// Reads a Verilog text and runs its net, for so many cycles at most.
pub fn simulate<S: Source>(alloc: Global, source: &mut S, cycles: u32) -> Result<Answer, Stop>
    ensures ok { IfOk result (λ a. SimOwes cycles (S.left source.old) (due_of a) a.status) }
    ensures stop { IfErr result (StopsBy (Some (Sim cycles)) (S.left source.old) (Rose (S.faults source.old) (S.faults source.new))) }
    ensures later { S.faults source.old ≤ S.faults source.new }
{
    match read_all(alloc, source, MOST_BYTES) {
        Ok(text) => Ok(simulated(alloc, text.as_slice(), cycles)?),
        Err(ReadAllError::TooLong) => Ok(not_net(alloc, MOST_BYTES)?),
        Err(ReadAllError::ReadFault) => Err(Stop::ReadFault),
        Err(ReadAllError::Mem) => Err(Stop::Memory),
    }
}
