// A journal done again.

ghost use Rattle.std.specs.Prelude.{◌≡◌, ◌≤◌, IfOk};
ghost use Rattle.sim_layout.specs.Rounds.{threads_of};
ghost use Rattle.cycle_sim.specs.Opened.{IsOpenable, IsOpened};
ghost use Rattle.slot_sim.specs.Slots.{IsThreadedIn};
ghost use Rattle.journal_laws.specs.Steps.{InTop};
ghost use Rattle.journal_replay.specs.Replays.{Replays};

use crate::steps::redo;
use hls_io::Bytes;
use journal_laws::judge::judge;
use journal_laws::verdict::{Next, Verdict};
use journal_text::entry::Entry;
use netlist::netlist::Module;
use slot_sim::opening::open_threaded;
use slot_sim::running::SlotSim;
use std::alloc::{AllocError, Global};

/// What a journal gives that is done again, or the number of its first entry that isn't legal.
#[derive(Drop)]
pub enum Redone {
    Replayed {
        output: Bytes,
        cycles: u128,
        verdict: Verdict,
    },
    BadEntry(usize),
}

/// Does a journal again, on a simulator of the net in its initial state.
fn replay_on(
    alloc: Global,
    modules: &[Module],
    sim: &mut SlotSim,
    journal: &[Entry],
) -> Result<Redone, AllocError>
    requires begins { IsOpened modules.now sim.old }
    requires threaded { IsThreadedIn modules.now (threads_of modules.now) }
    ensures { IfOk result (λ r. InTop modules.now (λ top. Replays modules.now top (threads_of modules.now) journal.now r)) }
{
    let mut output = Bytes::new(alloc);
    let mut cycles = 0u128;
    for number in 0..journal.len() {
        match redo(sim, &mut output, journal[number])? {
            Some(more) => cycles += more as u128,
            None => return Ok(Redone::BadEntry(number)),
        }
    }
    match judge(sim, 0, journal.len(), journal.len()) {
        Next::Ended(verdict) => Ok(Redone::Replayed {
            output,
            cycles,
            verdict,
        }),
        Next::Thread(_) => unreachable!(),
    }
}

/// Does a journal again on a net of threads.
pub fn replay(
    alloc: Global,
    modules: &[Module],
    threads: usize,
    journal: &[Entry],
) -> Result<Redone, AllocError>
    requires openable { IsOpenable modules.now }
    requires few { threads ≤ 64 }
    requires threads { threads ≡ threads_of modules.now }
    requires threaded { IsThreadedIn modules.now threads }
    ensures { IfOk result (λ r. InTop modules.now (λ top. Replays modules.now top threads journal.now r)) }
{
    let mut sim = open_threaded(alloc, modules, threads)?;
    replay_on(alloc, modules, &mut sim, journal)
}
