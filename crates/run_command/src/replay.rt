// A journal done again on a net.

ghost use Rattle.std.specs.Prelude.{◌≡◌, ◌<◌, ◌≤◌, None, Some, IfOk};
ghost use Rattle.sim_layout.specs.Rounds.{threads_of};
ghost use Rattle.cycle_sim.specs.Opened.{IsOpenable};
ghost use Rattle.journal_laws.specs.Slots.{IsThreadedIn};
ghost use Rattle.run_command.specs.Replays.{IsBadEntry, IsReplayAnswer};

use crate::lines::{bad_entry_line, summary};
use hls_io::Bytes;
use journal_laws::verdict::Verdict;
use journal_replay::replay::{Redone, replay};
use journal_text::entry::Entry;
use netlist::netlist::Module;
use sqlite_items::Items;
use std::alloc::{AllocError, Global};

/// How a replay ended, what it printed, its journal, and the line for err; or the first entry that is not legal, or misspelt.
#[derive(Drop)]
pub enum ReplayAnswer {
    Replayed {
        verdict: Verdict,
        output: Bytes,
        journal: Items<Entry>,
        line: String,
    },
    BadEntry {
        index: usize,
        line: String,
    },
}

fn bad_entry(alloc: Global, index: usize) -> Result<ReplayAnswer, AllocError>
    ensures { IfOk result (λ a. IsBadEntry a index) }
{
    let line = bad_entry_line(alloc, index)?;
    Ok(ReplayAnswer::BadEntry { index, line })
}

/// Does a journal again on a net of threads. `bad` is the number of its first entry that is misspelt, which follows `entries`, if there is one.
pub fn replay_net(
    alloc: Global,
    modules: &[Module],
    threads: usize,
    entries: Items<Entry>,
    bad: Option<usize>,
) -> Result<ReplayAnswer, AllocError>
    requires openable { IsOpenable modules.now }
    requires few { threads ≤ 64 }
    requires threads { threads ≡ threads_of modules.now }
    requires threaded { IsThreadedIn modules.now threads }
    ensures { IfOk result (IsReplayAnswer modules.now threads entries bad) }
{
    match replay(alloc, modules, threads, entries.as_slice())? {
        Redone::BadEntry(index) => bad_entry(alloc, index),
        Redone::Replayed {
            output,
            cycles: _,
            verdict,
        } => match bad {
            Some(index) => bad_entry(alloc, index),
            None => {
                let line = summary(alloc, entries.as_slice(), verdict)?;
                Ok(ReplayAnswer::Replayed {
                    verdict,
                    output,
                    journal: entries,
                    line,
                })
            }
        },
    }
}
