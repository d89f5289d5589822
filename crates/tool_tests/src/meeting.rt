// Workers that run side by side.

use crate::call::{Asked, SURE, told_at};
use crate::programs::{ADDING, COUNTING, PRINTING, sixty_three};
use hardware_threads::gate::Gate;
use hls_tool::Status;
use std::alloc::{AllocError, Global};
use std::process::Abort;
use std::sync::Wait;
use std::sync::atomic::{AtomicBool, AtomicU64, Ordering};
use std::test::Fail;
use std::thread;
use std::thread::Threads;

/// How often a worker looks for the flags of the others.
const TURNS: u64 = 1_000_000_000;

/// A gate at which each worker raises a flag, at its first `before_closed` and at its first `after_closed`, and waits there for the flags of
/// all. A meeting of none is an open gate.
#[derive(Drop)]
pub struct Meeting {
    all: u64,
    before: AtomicU64,
    after: AtomicU64,
    is_late: AtomicBool,
}

impl Meeting {
    pub fn of(workers: u32) -> Meeting {
        let all = if workers < 64 {
            (1u64 << workers) - 1
        } else {
            u64::MAX
        };
        Meeting {
            all,
            before: AtomicU64::new(0),
            after: AtomicU64::new(0),
            is_late: AtomicBool::new(false),
        }
    }

    fn meet(&self, flags: &AtomicU64, worker: u32) {
        if self.all == 0 || worker >= 64 {
            return;
        }
        let flag = 1u64 << worker;
        if flags.fetch_or(flag, Ordering::SeqCst) & flag != 0 {
            return;
        }
        for _ in 0..TURNS {
            if flags.load(Ordering::SeqCst) == self.all {
                return;
            }
            thread::yield_now();
        }
        self.is_late.store(true, Ordering::SeqCst);
    }

    /// Whether all have raised both flags, and none of them gave up on the others.
    fn is_met(&self) -> bool {
        !self.is_late.load(Ordering::SeqCst)
            && self.before.load(Ordering::SeqCst) == self.all
            && self.after.load(Ordering::SeqCst) == self.all
    }
}

impl Gate for Meeting {
    fn before_closed(&self, worker: u32) {
        self.meet(&self.before, worker);
    }

    fn after_closed(&self, worker: u32) {
        self.meet(&self.after, worker);
    }
}

/// Whether all workers of a run of the text meet at both flags; the run ends with this status.
fn all_meet<R: Threads + Wait + Sync>(
    rt: &R,
    alloc: Global,
    text: &str,
    asked: Asked,
    workers: u32,
    status: Status,
) -> Result<bool, AllocError> {
    let gate = Meeting::of(workers);
    let told = told_at(rt, alloc, text.as_bytes(), asked, &SURE, &gate)?;
    Ok(told.outcome.status == status && gate.is_met())
}

/// Programs, and how many workers run them: one for each hardware thread.
const MEETINGS: [(&str, u32); 3] = [(COUNTING, 1), (PRINTING, 3), (ADDING, 4)];

fn meeting_rows() -> &'static [(&'static str, u32)] {
    &MEETINGS
}

#[test]
fn workers_meet(rt: HostRuntime) -> Result<(), Fail> {
    for (text, workers) in meeting_rows() {
        let met = all_meet(&rt, rt.alloc(), text, Asked::Run, *workers, Status::Ok)?;
        if !met {
            rt.panic(*text);
        }
    }
    Ok(())
}

/// As many workers as there can be. All have met before the first entry is made; of the run no more than its beginning is asked for.
#[test]
fn sixty_four_workers_meet(rt: HostRuntime) -> Result<(), Fail> {
    let asked = Asked::Journal { entries: 1 };
    let met = all_meet(&rt, rt.alloc(), sixty_three(), asked, 64, Status::Entries)?;
    assert!(rt; met);
    Ok(())
}
