ghost use Rattle.std.specs.Prelude.{◌≡◌, ◌≤◌};
ghost use Rattle.hls_commands.specs.Inside.{due_of};
ghost use Rattle.hls_tool.specs.Delivery.{Ends, MayBeOwed, TellsMemory, TookFault, passage};

use crate::outcome::Outcome;
use hls_commands::answer::Answer;
use hls_io::{Sink, write_all};
use hls_status::lines::{MEMORY, WRITE_FAULT};
use hls_status::status::Status;

/// Writes the line for a write fault, and says how much of it err took.
fn fault_told<E: Sink>(err: &mut E) -> usize
    ensures took { TookFault result (passage (E.held err.old) (E.held err.new) (E.faults err.old) (E.faults err.new)) }
    ensures later { E.faults err.old ≤ E.faults err.new }
{
    match write_all(err, WRITE_FAULT) {
        Ok(()) => WRITE_FAULT.len(),
        Err(fault) => fault.written,
    }
}

/// Writes to out, then to err, and says how the call ends.
fn send<O: Sink, E: Sink>(owed: Status, due: &[u8], line: &[u8], out: &mut O, err: &mut E) -> Status
    requires { MayBeOwed owed due.now }
    ensures ends { Ends owed due.now line.now
        (passage (O.held out.old) (O.held out.new) (O.faults out.old) (O.faults out.new))
        (passage (E.held err.old) (E.held err.new) (E.faults err.old) (E.faults err.new)) result }
    ensures out_later { O.faults out.old ≤ O.faults out.new }
    ensures err_later { E.faults err.old ≤ E.faults err.new }
{
    if let Err(fault) = write_all(out, due) {
        return Status::WriteFault {
            out: fault.written,
            err: fault_told(err),
        };
    }
    match (write_all(err, line), owed) {
        (Ok(()), owed) => owed,
        (Err(_), Status::Memory) => Status::Memory,
        (Err(fault), _) => Status::WriteFault {
            out: due.len(),
            err: fault.written,
        },
    }
}

pub fn deliver<O: Sink, E: Sink>(answer: Answer, out: &mut O, err: &mut E) -> Outcome
    requires { MayBeOwed answer.status (due_of answer).out }
    ensures ends { Ends answer.status (due_of answer).out (due_of answer).err
        (passage (O.held out.old) (O.held out.new) (O.faults out.old) (O.faults out.new))
        (passage (E.held err.old) (E.held err.new) (E.faults err.old) (E.faults err.new)) result.status }
    ensures text { result.text ≡ answer.text }
    ensures journal { result.journal ≡ answer.journal }
    ensures out_later { O.faults out.old ≤ O.faults out.new }
    ensures err_later { E.faults err.old ≤ E.faults err.new }
{
    let Answer {
        status,
        text,
        journal,
        out: to_out,
        line,
    } = answer;
    let status = send(status, to_out.as_slice(&text), line.as_slice(), out, err);
    Outcome {
        status,
        text,
        journal,
    }
}

/// Says that memory is wanting where the top call could not be reached: its line goes to err, as much of it as err takes.
pub fn tell_memory<E: Sink>(err: &mut E) -> Status
    ensures memory { result ≡ Status.Memory }
    ensures tells { TellsMemory (passage (E.held err.old) (E.held err.new) (E.faults err.old) (E.faults err.new)) }
{
    match write_all(err, MEMORY) {
        Ok(()) => Status::Memory,
        Err(_) => Status::Memory,
    }
}
