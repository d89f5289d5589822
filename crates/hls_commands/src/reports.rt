// Reports of what a Verilog text is made of.
ghost use Rattle.std.specs.Prelude.{◌≡◌, ◌≤◌, Some, IfOk, IfErr};
ghost use Rattle.hls_io.specs.Causes.{Rose};
ghost use Rattle.hls_words.specs.declared.task.Task.TheVariants.{Report};
ghost use Rattle.hls_commands.specs.Answers.{IsReported};
ghost use Rattle.hls_commands.specs.Inside.{StopsBy, due_of};

use crate::answer::{Answer, Line, Out};
use crate::commands::{Stop, compiled};
use hardware_report::report;
use hls_io::{Bytes, Source};
use hls_status::lines::reported_line;
use hls_status::status::Status;
use sqlite_items::Items;
use std::alloc::Global;
use std::thread::Threads;

/// Tells what the Verilog of the text is made of.
#[tactic(auto, using(crate::proofs::RefusalLemmas::stops_report))]
pub fn report_hardware<R: Threads + Sync, S: Source>(
    rt: &R,
    alloc: Global,
    source: &mut S,
) -> Result<Answer, Stop>
    ensures ok { IfOk result (λ a. (a.status ≡ Status.Ok) × IsReported (S.left source.old) (due_of a)) }
    ensures stop { IfErr result (StopsBy (Some Report) (S.left source.old) (Rose (S.faults source.old) (S.faults source.new))) }
    ensures later { S.faults source.old ≤ S.faults source.new }
{
    let made = compiled(rt, alloc, source, 1)?;
    let told = report(alloc, &made.program, &made.net, made.plans.as_slice())?;
    let line = reported_line(alloc, told.len())?;
    Ok(Answer {
        status: Status::Ok,
        text: Bytes::new(alloc),
        journal: Items::new(alloc),
        out: Out::Printed(told),
        line: Line::Made(line),
    })
}
