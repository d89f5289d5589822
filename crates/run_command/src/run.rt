// A run of a net by a worker for each thread.

ghost use Rattle.std.specs.Prelude.{◌≡◌, ◌<◌, ◌≤◌, IfOk};
ghost use Rattle.sim_layout.specs.Rounds.{threads_of};
ghost use Rattle.cycle_sim.specs.Opened.{IsOpenable};
ghost use Rattle.journal_laws.specs.Slots.{IsThreadedIn};
ghost use Rattle.run_command.specs.Runs.{IsRunAnswer};

use crate::lines::run_lines;
use hardware_threads::gate::Gate;
use hardware_threads::run::run;
use hls_io::Bytes;
use journal_laws::verdict::Verdict;
use journal_text::entry::Entry;
use netlist::netlist::Module;
use sqlite_items::Items;
use std::alloc::{AllocError, Global};
use std::sync::Wait;
use std::thread::Threads;

/// How a run ended, what it printed, its journal, and the lines for err.
#[derive(Drop)]
pub struct RunAnswer {
    pub verdict: Verdict,
    pub output: Bytes,
    pub journal: Items<Entry>,
    pub lines: Bytes,
}

/// Runs a net of threads until done is shown, no thread can move, or there are so many entries. The lines for err are those of the journal,
/// where they are asked for, and that of the verdict.
pub fn run_net<R: Threads + Wait + Sync, G: Gate + Sync>(
    rt: &R,
    alloc: Global,
    modules: &[Module],
    threads: usize,
    entries: usize,
    listed: bool,
    gate: &G,
) -> Result<RunAnswer, AllocError>
    requires openable { IsOpenable modules.now }
    requires any { 0 < threads }
    requires few { threads ≤ 64 }
    requires threads { threads ≡ threads_of modules.now }
    requires threaded { IsThreadedIn modules.now threads }
    ensures { IfOk result (IsRunAnswer modules.now threads entries listed) }
{
    let ran = run(rt, alloc, modules, threads, entries, gate)?;
    let lines = run_lines(alloc, listed, ran.journal.as_slice(), ran.verdict)?;
    Ok(RunAnswer {
        verdict: ran.verdict,
        output: ran.output,
        journal: ran.journal,
        lines,
    })
}
