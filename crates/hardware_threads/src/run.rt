// Workers that run closed cycles on copies, and commit them under the lock of the board.

ghost use Rattle.std.specs.Prelude.{◌≡◌, ◌<◌, ◌≤◌, ◌+◌, length, IfOk, IfSome, vec_len};
ghost use Rattle.std.specs.Thread.{IsSend, IsSync};
ghost use Rattle.sim_layout.specs.Rounds.{threads_of};
ghost use Rattle.sim_layout.specs.Running.{IsSameNet};
ghost use Rattle.cycle_sim.specs.Opened.{IsOpenable, IsOpened};
ghost use Rattle.slot_sim.specs.Slots.{IsThreadedIn};
ghost use Rattle.grant_journal.specs.Boards.{Frame, IsSlotAt};
ghost use Rattle.hardware_threads.specs.Run.{IsRan};

use crate::gate::Gate;
use grant_journal::board::Board;
use grant_journal::local::{Case, Local};
use hls_io::Bytes;
use journal_laws::verdict::{Answer, Next, Verdict};
use journal_text::entry::Entry;
use netlist::netlist::Module;
use slot_sim::opening::open_threaded;
use slot_sim::running::SlotSim;
use sqlite_items::Items;
use std::alloc::{AllocError, Global};
use std::marker::Brand;
use std::sync::{Mutex, Wait};
use std::thread;
use std::thread::Threads;

const MOST: u32 = 4096;

/// How a run ended, what it printed, and its journal.
#[derive(Drop)]
pub struct Ran {
    pub verdict: Verdict,
    pub output: Bytes,
    pub journal: Items<Entry>,
}

/// What a worker holds: the slot as it was copied, and a copy to go on with.
#[derive(Drop)]
struct Seat<'a, J: Case> {
    start: Local<'a, J>,
    local: Local<'a, J>,
}

/// Runs a net of threads by a worker for each thread, until done is shown, no thread can move, or there are so many entries. Memory is
/// wanting before the first worker starts, or where the program prints.
pub fn run<R: Threads + Wait + Sync, G: Gate + Sync>(
    rt: &R,
    alloc: Global,
    modules: &[Module],
    threads: usize,
    entries: usize,
    gate: &G,
) -> Result<Ran, AllocError>
    requires openable { IsOpenable modules.now }
    requires any { 0 < threads }
    requires few { threads ≤ 64 }
    requires threads { threads ≡ threads_of modules.now }
    requires threaded { IsThreadedIn modules.now threads }
    ensures { IfOk result (λ r. IsRan modules.now threads entries r.journal r.output r.verdict) }
{
    let first = open_threaded(alloc, modules, threads)?;
    run_as::<Brand, R, G>(rt, alloc, first, threads, entries, gate)
}

/// The same for a run that has picked its case.
fn run_as<'a, J: Case + Send + Sync, R: Threads + Wait + Sync, G: Gate + Sync>(
    rt: &R,
    alloc: Global,
    first: SlotSim<'a>,
    threads: usize,
    entries: usize,
    gate: &G,
) -> Result<Ran, AllocError>
    requires frame { Frame J.modules J.threads J.layout }
    requires net { IsSameNet J.layout first }
    requires begins { IsOpened J.modules first }
    requires any { 0 < threads }
    requires few { threads ≤ 64 }
    requires threads { threads ≡ J.threads }
    requires entries { entries ≡ J.most }
    ensures { IfOk result (λ r. IsRan J.modules J.threads J.most r.journal r.output r.verdict) }
{
    let mut seats: Vec<Seat<'a, J>> = open_seats(alloc, &first, threads)?;
    let board: Board<'a, J> = Board::open(alloc, first, entries)?;
    let shared = Mutex::new(board);
    work_beside(rt, &shared, gate, 0, seats.as_mut_slice());
    alone(shared.into_inner(), &mut seats[0])
}

/// A seat for each thread.
fn open_seats<'a, J: Case>(
    alloc: Global,
    first: &SlotSim<'a>,
    threads: usize,
) -> Result<Vec<Seat<'a, J>>, AllocError>
    requires frame { Frame J.modules J.threads J.layout }
    requires net { IsSameNet J.layout first.now }
    ensures { IfOk result (λ v. vec_len v ≡ threads) }
{
    let mut seats = Vec::with_capacity(alloc, threads)?;
    for _ in 0..threads {
        seats.push(open_seat(first)?)?;
    }
    Ok(seats)
}

fn open_seat<'a, J: Case>(first: &SlotSim<'a>) -> Result<Seat<'a, J>, AllocError>
    requires frame { Frame J.modules J.threads J.layout }
    requires net { IsSameNet J.layout first.now }
{
    Ok(Seat {
        start: Local::open(first)?,
        local: Local::open(first)?,
    })
}

/// The first thread from `worker` on that can move, with its slot copied.
fn take<'a, J: Case>(
    board: &mut Board<'a, J>,
    worker: usize,
    start: &mut Local<'a, J>,
) -> Option<usize>
    requires { worker ≤ J.threads }
    ensures { IfSome result (λ i. (i < J.threads) × IsSlotAt J.modules J.threads board.new i start.new) }
{
    match board.next(worker) {
        Next::Thread(thread) => {
            board.copy_slot(thread, start);
            Some(thread)
        }
        Next::Ended(_) => None,
    }
}

/// One worker. It ends with the run, or where memory runs out.
fn work<'a, J: Case, R: Wait, G: Gate>(
    rt: &R,
    shared: &Mutex<Board<'a, J>>,
    gate: &G,
    worker: usize,
    seat: &mut Seat<'a, J>,
)
    requires frame { Frame J.modules J.threads J.layout }
    requires worker { worker ≤ J.threads }
    requires few { worker ≤ 64 }
{
    let Seat { start, local } = seat;
    for _ in rt.forever() {
        let Some(thread) = take(&mut shared.lock(rt), worker, start) else {
            return;
        };
        local.set(start);
        gate.before_closed(worker as u32);
        let closed = local.closed(MOST);
        gate.after_closed(worker as u32);
        match shared.lock(rt).commit(thread, start, closed, local) {
            Ok(Answer::Ended(_)) | Err(AllocError) => return,
            Ok(Answer::Committed | Answer::Stale | Answer::Waits) => {}
        }
    }
}

/// The workers of these seats side by side, each in a thread of its own; the first of them has this number.
fn work_beside<'a, J: Case + Send + Sync, R: Threads + Wait + Sync, G: Gate + Sync>(
    rt: &R,
    shared: &Mutex<Board<'a, J>>,
    gate: &G,
    first: usize,
    seats: &mut [Seat<'a, J>],
)
    requires frame { Frame J.modules J.threads J.layout }
    requires workers { first + length seats.old ≤ J.threads }
    requires few { first + length seats.old ≤ 64 }
{
    if seats.len() == 1 {
        work(rt, shared, gate, first, &mut seats[0]);
        return;
    }
    if seats.len() > 1 {
        let half = seats.len() / 2;
        let next = first + half;
        let (left, right) = seats.split_at_mut(half);
        thread::join(
            rt,
            ||
                requires { IsSync R.row × IsSync G.row × IsSend J.row × IsSync J.row × Frame J.modules J.threads J.layout
                    × (first + length left.now ≤ J.threads) × (first + length left.now ≤ 64) }
            { work_beside(rt, shared, gate, first, left) },
            ||
                requires { IsSync R.row × IsSync G.row × IsSend J.row × IsSync J.row × Frame J.modules J.threads J.layout
                    × (next + length right.now ≤ J.threads) × (next + length right.now ≤ 64) }
            { work_beside(rt, shared, gate, next, right) },
        );
    }
}

/// Goes on alone, on a seat that no worker needs any more, until there is a verdict.
fn alone<'a, J: Case>(board: Board<'a, J>, seat: &mut Seat<'a, J>) -> Result<Ran, AllocError>
    ensures { IfOk result (λ r. IsRan J.modules J.threads J.most r.journal r.output r.verdict) }
{
    let mut board = board;
    let Seat { start, local } = seat;
    'turns: loop {
        if let Some(verdict) = board.turn(start, local)? {
            let (output, journal) = board.finish();
            return Ok(Ran {
                verdict,
                output,
                journal,
            });
        }
    }
}
