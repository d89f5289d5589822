// Calls of the tool.

ghost use Rattle.std.specs.Prelude.{IfOk};
ghost use Rattle.hls_tool.specs.Line.{IsInRange};

use crate::meeting::Meeting;
use hls_io::{MemSink, MemSource};
use hls_tool::{Outcome, Status, Task, perform};
use sqlite_items::Items;
use std::alloc::{AllocError, Global};
use std::process::Abort;
use std::sync::Wait;
use std::thread::Threads;
use turns::Turn;

/// The most bytes that a sink for a text takes.
const ROOM: usize = 300_000;

/// The most bytes that a sink for lines takes.
const LINES: usize = 20_000;

/// The most entries of a run.
const ENTRIES: u32 = 100_000;

/// What a test asks of the tool.
#[derive(Clone, Copy)]
pub enum Asked {
    Build,
    Step { cycles: u32 },
    /// A dump of so many cycles.
    Dump { cycles: u32 },
    Run,
    /// The journal of a run, of so many entries.
    Journal { entries: u32 },
    Replay,
    /// So many steps of main.
    Walk { steps: u32 },
    Check,
    /// A run of so many steps at most.
    CheckRun { steps: u32 },
    Sim { cycles: u32 },
    /// The program of the number 0, of two threads beside main and of one line, for so many cycles at most.
    Gen { cycles: u32 },
    Report,
}

/// The most bytes that each call of a stream moves, and the numbers of the calls that fail, from 1.
pub type Moves<'a> = (usize, &'a [u64]);

/// How the source, out and err move.
#[derive(Clone, Copy)]
pub struct Streams<'a> {
    pub reads: Moves<'a>,
    pub outs: Moves<'a>,
    pub errs: Moves<'a>,
}

/// Streams of which no call fails.
pub const SURE: Streams<'static> = Streams {
    reads: (4096, &[]),
    outs: (4096, &[]),
    errs: (4096, &[]),
};

/// What a call answers, and what out and err took.
#[derive(Drop)]
pub struct Ended<'a> {
    pub outcome: Outcome,
    pub out: MemSink<'a>,
    pub err: MemSink<'a>,
}

fn turns_of_main(alloc: Global, steps: u32) -> Result<Items<Turn>, AllocError> {
    let mut turns = Items::new(alloc);
    turns.push(Turn { thread: 0, steps })?;
    Ok(turns)
}

fn task_of(alloc: Global, asked: Asked) -> Result<Task, AllocError>
    ensures { IfOk result IsInRange }
{
    match asked {
        Asked::Build => Ok(Task::Build { jobs: 1 }),
        Asked::Step { cycles } => Ok(Task::Step { cycles, vcd: false }),
        Asked::Dump { cycles } => Ok(Task::Step { cycles, vcd: true }),
        Asked::Run => Ok(Task::Run {
            entries: ENTRIES,
            journal: false,
        }),
        Asked::Journal { entries } => Ok(Task::Run {
            entries,
            journal: true,
        }),
        Asked::Replay => Ok(Task::Replay),
        Asked::Walk { steps } => Ok(Task::Walk(turns_of_main(alloc, steps)?)),
        Asked::Check => Ok(Task::Check),
        Asked::CheckRun { steps } => Ok(Task::CheckRun { steps }),
        Asked::Sim { cycles } => Ok(Task::Sim { cycles }),
        Asked::Gen { cycles } => Ok(Task::Gen {
            seed: 0,
            threads: 2,
            size: 1,
            cycles,
        }),
        Asked::Report => Ok(Task::Report),
    }
}

/// What a call on the text answers over such streams, where the workers of a run meet at the gate.
pub fn told_at<'a, R: Threads + Wait + Sync>(
    rt: &R,
    alloc: Global,
    text: &[u8],
    asked: Asked,
    streams: &Streams<'a>,
    gate: &Meeting,
) -> Result<Box<Ended<'a>>, AllocError> {
    let (reads, outs, errs) = (streams.reads, streams.outs, streams.errs);
    let mut source = MemSource::new(text, reads.0.max(1), reads.1);
    let mut out = MemSink::new(alloc, ROOM, outs.0.max(1), outs.1)?;
    let mut err = MemSink::new(alloc, LINES, errs.0.max(1), errs.1)?;
    let task = task_of(alloc, asked)?;
    let outcome = perform(rt, alloc, task, &mut source, &mut out, &mut err, gate);
    let ended = Box::new(alloc, Ended { outcome, out, err })?;
    Ok(ended)
}

/// The same, where no worker waits for another.
pub fn told<'a, R: Threads + Wait + Sync>(
    rt: &R,
    alloc: Global,
    text: &[u8],
    asked: Asked,
    streams: &Streams<'a>,
) -> Result<Box<Ended<'a>>, AllocError> {
    told_at(rt, alloc, text, asked, streams, &Meeting::of(0))
}

/// Whether the call ended so, and out and err took just these bytes.
pub fn is_ended(told: &Ended<'_>, status: Status, out: &[u8], err: &[u8]) -> bool {
    told.outcome.status == status && told.out.held() == out && told.err.held() == err
}

/// Whether the bytes are the whole where that is empty or ends a line, else whether they begin so.
fn is_as(held: &[u8], expected: &str) -> bool {
    if expected.is_empty() || expected.ends_with('\n') {
        held == expected.as_bytes()
    } else {
        held.starts_with(expected.as_bytes())
    }
}

/// Whether a call ends so, and out and err take just these bytes.
pub fn is_told<R: Threads + Wait + Sync>(
    rt: &R,
    alloc: Global,
    text: &[u8],
    asked: Asked,
    streams: &Streams<'_>,
    status: Status,
    out: &[u8],
    err: &[u8],
) -> Result<bool, AllocError> {
    let told = told(rt, alloc, text, asked, streams)?;
    Ok(is_ended(&told, status, out, err))
}

/// Whether a call has this number, and out and err take what is expected.
pub fn is_right<R: Threads + Wait + Sync>(
    rt: &R,
    alloc: Global,
    text: &[u8],
    asked: Asked,
    streams: &Streams<'_>,
    number: u8,
    printed: &str,
    line: &str,
) -> Result<bool, AllocError> {
    let told = told(rt, alloc, text, asked, streams)?;
    Ok(
        told.outcome.status.number() == number
            && is_as(told.out.held(), printed)
            && is_as(told.err.held(), line),
    )
}

/// A text, what is asked of it, the number of the status, and what is written to out and to err.
pub type Row = (&'static str, Asked, u8, &'static str, &'static str);

/// Asserts each row.
pub fn each<R: Threads + Wait + Sync + Abort>(
    rt: &R,
    alloc: Global,
    rows: &[Row],
) -> Result<(), AllocError> {
    for (source, asked, number, printed, line) in rows {
        let text = source.as_bytes();
        let is_right = is_right(rt, alloc, text, *asked, &SURE, *number, printed, line)?;
        if !is_right {
            rt.panic(*source);
        }
    }
    Ok(())
}
