// Reads and writes that fail, and the number of each status.

use crate::call::{Asked, Row, SURE, Streams, is_ended, is_right, is_told, told};
use crate::programs::{COUNTING, ENDLESS, MAIN};
use crate::sims::CLIMBING;
use c_profile::Refusal;
use hls_io::MemSink;
use hls_tool::{Status, UnknownCause, WalkEnd, tell_memory};
use std::alloc::{AllocError, Global};
use std::process::Abort;
use std::sync::Wait;
use std::test::Fail;
use std::thread::Threads;
use thread_semantics::UndefinedCause;

const READ_FAULT: &str = "hls: read fault\n";

const WRITE_FAULT: &[u8] = b"hls: write fault\n";

/// A text and what is asked of it.
type Case = (&'static str, Asked);

/// Calls of each command that answer alike each time, with much, with little and with nothing for out. The first reads nothing.
const CASES: [Case; 15] = [
    ("", Asked::Gen { cycles: 1_000_000 }),
    (MAIN, Asked::Build),
    ("int x;", Asked::Build),
    (COUNTING, Asked::Step { cycles: 11_520 }),
    (COUNTING, Asked::Step { cycles: 0 }),
    (COUNTING, Asked::Dump { cycles: 9 }),
    (COUNTING, Asked::Walk { steps: 1_000_000 }),
    (COUNTING, Asked::Walk { steps: 15 }),
    (COUNTING, Asked::Run),
    (COUNTING, Asked::Check),
    (ENDLESS, Asked::Journal { entries: 1 }),
    (
        "//@ 0 9 -\nint main(void){while (1) ; return 0;}",
        Asked::Replay,
    ),
    ("//@ 5 0 -\nint main(void){return 0;}", Asked::Replay),
    (CLIMBING, Asked::Sim { cycles: 2 }),
    (MAIN, Asked::Report),
];

fn cases() -> &'static [Case] {
    &CASES
}

/// Whether a fault of this read is told, where each read takes 16 bytes.
fn read_fails<R: Threads + Wait + Sync>(
    rt: &R,
    alloc: Global,
    case: &Case,
    number: u64,
) -> Result<bool, AllocError> {
    let fails = [number];
    let streams = Streams {
        reads: (16, &fails),
        ..SURE
    };
    let text = case.0.as_bytes();
    is_right(rt, alloc, text, case.1, &streams, 3, "", READ_FAULT)
}

/// The last read finds the text's end.
#[test]
fn tells_a_fault_of_each_read(rt: HostRuntime) -> Result<(), Fail> {
    for case in cases().iter().skip(1) {
        for number in 0..=case.0.as_bytes().chunks(16).count() as u64 {
            let is_right = read_fails(&rt, rt.alloc(), case, number.saturating_add(1))?;
            if !is_right {
                rt.panic(number);
            }
        }
    }
    Ok(())
}

/// Whether a fault of this write to out is told, one of the four or fewer in which these bytes go.
fn out_fails<R: Threads + Wait + Sync>(
    rt: &R,
    alloc: Global,
    case: &Case,
    number: usize,
    due: &[u8],
) -> Result<bool, AllocError> {
    let piece = due.len() / 4 + 1;
    let out = number.saturating_mul(piece);
    if out >= due.len() {
        return Ok(true);
    }
    let fails = [(number as u64).saturating_add(1)];
    let streams = Streams {
        outs: (piece, &fails),
        ..SURE
    };
    let (text, front) = (case.0.as_bytes(), &due[..out]);
    let status = Status::WriteFault { out, err: 17 };
    is_told(
        rt,
        alloc,
        text,
        case.1,
        &streams,
        status,
        front,
        WRITE_FAULT,
    )
}

/// The same of a write to err, where out has taken all that is due.
fn err_fails<R: Threads + Wait + Sync>(
    rt: &R,
    alloc: Global,
    case: &Case,
    number: usize,
    out: &[u8],
    due: &[u8],
) -> Result<bool, AllocError> {
    let piece = due.len() / 4 + 1;
    let err = number.saturating_mul(piece);
    if err >= due.len() {
        return Ok(true);
    }
    let fails = [(number as u64).saturating_add(1)];
    let streams = Streams {
        errs: (piece, &fails),
        ..SURE
    };
    let (text, front) = (case.0.as_bytes(), &due[..err]);
    let status = Status::WriteFault {
        out: out.len(),
        err,
    };
    is_told(rt, alloc, text, case.1, &streams, status, out, front)
}

#[test]
fn tells_a_fault_of_each_write(rt: HostRuntime) -> Result<(), Fail> {
    for case in cases() {
        let due = told(&rt, rt.alloc(), case.0.as_bytes(), case.1, &SURE)?;
        let (out, err) = (due.out.held(), due.err.held());
        for number in 0..4 {
            let is_right = out_fails(&rt, rt.alloc(), case, number, out)?
                && err_fails(&rt, rt.alloc(), case, number, out, err)?;
            if !is_right {
                rt.panic(number);
            }
        }
    }
    Ok(())
}

/// The calls of out and of err that fail in a build, each taking so many bytes, how many bytes out takes, and what err takes: where out
/// failed, err owes the line of a write fault.
type Fault = (
    usize,
    &'static [u64],
    usize,
    &'static [u64],
    usize,
    &'static [u8],
);

const FAULTS: [Fault; 6] = [
    (16, &[3], 4096, &[], 32, WRITE_FAULT),
    (16, &[1], 4096, &[1], 0, b""),
    (16, &[3], 5, &[1], 32, b""),
    (16, &[3], 5, &[2], 32, b"hls: "),
    (16, &[3], 5, &[3], 32, b"hls: write"),
    (16, &[3], 5, &[4], 32, b"hls: write faul"),
];

fn fault_rows() -> &'static [Fault] {
    &FAULTS
}

/// Whether such a build is told, of which the text is this one.
fn is_faulty<R: Threads + Wait + Sync>(
    rt: &R,
    alloc: Global,
    fault: &Fault,
    source: &str,
    text: &[u8],
) -> Result<bool, AllocError> {
    let (out_chunk, out_fails, err_chunk, err_fails, out, err) = *fault;
    let streams = Streams {
        outs: (out_chunk, out_fails),
        errs: (err_chunk, err_fails),
        ..SURE
    };
    let told = told(rt, alloc, source.as_bytes(), Asked::Build, &streams)?;
    let out = out.min(text.len());
    let status = Status::WriteFault {
        out,
        err: err.len(),
    };
    Ok(told.outcome.text.as_slice() == text && is_ended(&told, status, &text[..out], err))
}

#[test]
fn tells_what_both_sinks_took(rt: HostRuntime) -> Result<(), Fail> {
    for source in [MAIN, COUNTING] {
        let built = told(&rt, rt.alloc(), source.as_bytes(), Asked::Build, &SURE)?;
        for fault in fault_rows() {
            let is_right = is_faulty(&rt, rt.alloc(), fault, source, built.out.held())?;
            assert!(rt; is_right);
        }
    }
    Ok(())
}

/// The second read of four bytes fails. A text is judged only where it is read to its end.
const ORDER: [Row; 10] = [
    ("int x", Asked::Build, 3, "", READ_FAULT),
    ("int x", Asked::Run, 3, "", READ_FAULT),
    ("int x", Asked::Step { cycles: 9 }, 3, "", READ_FAULT),
    ("int x", Asked::Walk { steps: 1 }, 3, "", READ_FAULT),
    ("int x", Asked::Check, 3, "", READ_FAULT),
    ("modul", Asked::Sim { cycles: 2 }, 3, "", READ_FAULT),
    ("//@ 5 0 -\nint x", Asked::Replay, 3, "", READ_FAULT),
    (MAIN, Asked::Build, 3, "", READ_FAULT),
    ("int x", Asked::Report, 3, "", READ_FAULT),
    (
        "int x",
        Asked::Gen { cycles: 0 },
        9,
        "",
        "hls: generated, not done, 660 bytes of C, ",
    ),
];

fn order_rows() -> &'static [Row] {
    &ORDER
}

#[test]
fn judges_what_is_read_to_its_end(rt: HostRuntime) -> Result<(), Fail> {
    let streams = Streams {
        reads: (4, &[2]),
        ..SURE
    };
    for (text, asked, number, printed, line) in order_rows() {
        let text = text.as_bytes();
        let is_right = is_right(
            &rt,
            rt.alloc(),
            text,
            *asked,
            &streams,
            *number,
            printed,
            line,
        )?;
        if !is_right {
            rt.panic(*line);
        }
    }
    Ok(())
}

#[test]
fn tells_that_memory_is_wanting(rt: HostRuntime) -> Result<(), Fail> {
    let alloc = rt.alloc();
    let mut err = MemSink::new(alloc, 1000, 16, &[])?;
    let mut full = MemSink::new(alloc, 1000, 16, &[1])?;
    let told = [tell_memory(&mut err), tell_memory(&mut full)];
    let is_told = told == [Status::Memory, Status::Memory];
    let held = err.held() == b"hls: out of memory\n".as_slice() && full.held().is_empty();
    assert!(rt; is_told && held);
    Ok(())
}

#[test]
fn has_a_number_for_each_status(rt: HostRuntime) {
    let signal = String::new(rt.alloc());
    let name = String::new(rt.alloc());
    let raced = String::new(rt.alloc());
    let numbers = [
        (Status::Ok, 0),
        (Status::Refused(Refusal::NoMain), 1),
        (Status::Usage, 2),
        (Status::ReadFault, 3),
        (Status::WriteFault { out: 0, err: 0 }, 4),
        (Status::Memory, 5),
        (Status::Entries, 6),
        (Status::Stuck, 7),
        (Status::BadEntry { index: 0 }, 8),
        (Status::Cycles { cycles: 0 }, 9),
        (Status::Walked(WalkEnd::Listed { steps: 0 }), 10),
        (Status::NotNet { offset: 0 }, 11),
        (Status::Loop { signal }, 11),
        (Status::Doubt { offset: 0, name }, 12),
        (
            Status::Race {
                first: 0,
                second: 0,
                name: raced,
            },
            13,
        ),
        (
            Status::UndefinedStep {
                offset: 0,
                cause: UndefinedCause::NoValue,
            },
            14,
        ),
        (
            Status::Unknown {
                steps: 0,
                cause: UnknownCause::Deadlock,
            },
            15,
        ),
    ];
    for (status, number) in &numbers {
        assert!(rt; status.number() == *number);
    }
}
