// The first thread that can move, and the verdict on a state.

ghost use Rattle.std.specs.Prelude.{◌≤◌};
ghost use Rattle.sim_layout.specs.Rounds.{threads_of};
ghost use Rattle.sim_layout.specs.Running.{Stands, IsSameNet, IsSameState};
ghost use Rattle.slot_sim.specs.Slots.{IsThreadedIn};
ghost use Rattle.sim_layout.specs.Running.{state_of};
ghost use Rattle.journal_laws.specs.Journal.{Judged, ended};
ghost use Rattle.journal_laws.specs.Steps.{OfTop, IsFirstFound, IsMover, IsOffer};

use crate::verdict::{Next, Verdict};
use slot_sim::running::SlotSim;

/// The first of the threads from one on, up to another, that can move. The state stays.
pub fn first_mover(sim: &mut SlotSim, from: usize, end: usize) -> Option<usize>
    requires end { end ≤ threads_of sim.old.modules }
    requires threaded { IsThreadedIn sim.old.modules (threads_of sim.old.modules) }
    ensures net { IsSameNet sim.old sim.new }
    ensures first { IsFirstFound sim.old from end result }
    ensures state { IsSameState sim.old sim.new }
{
    let _ = sim.threads();
    for thread in from..end {
        if sim.moves(thread) {
            return Some(thread);
        }
    }
    None
}

/// The first thread from `prefer` on, cyclically, that can move, or none where none can. The state stays.
pub fn mover(sim: &mut SlotSim, prefer: usize) -> Option<usize>
    requires prefer { prefer ≤ threads_of sim.old.modules }
    requires threaded { IsThreadedIn sim.old.modules (threads_of sim.old.modules) }
    ensures net { IsSameNet sim.old sim.new }
    ensures stands { Stands sim.old }
    ensures found { IsMover sim.old prefer result }
    ensures state { IsSameState sim.old sim.new }
{
    let threads = sim.threads();
    if let Some(thread) = first_mover(sim, prefer, threads) {
        return Some(thread);
    }
    first_mover(sim, 0, prefer)
}

/// The first thread from `prefer` on, cyclically, that can move, or the verdict on a state after so many of at most `most` entries. The
/// state stays.
pub fn judge(sim: &mut SlotSim, prefer: usize, entries: usize, most: usize) -> Next
    requires prefer { prefer ≤ threads_of sim.old.modules }
    requires threaded { IsThreadedIn sim.old.modules (threads_of sim.old.modules) }
    ensures net { IsSameNet sim.old sim.new }
    ensures verdict { OfTop sim.old (λ modules top count. Judged modules top count (state_of sim.old) entries most (ended result)) }
    ensures first { IsOffer sim.old prefer result }
    ensures state { IsSameState sim.old sim.new }
{
    let found = mover(sim, prefer);
    if sim.done() {
        return Next::Ended(Verdict::Done);
    }
    let Some(thread) = found else {
        return Next::Ended(Verdict::Stuck);
    };
    if entries == most {
        return Next::Ended(Verdict::Entries);
    }
    Next::Thread(thread)
}
