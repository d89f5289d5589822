// Closed cycles on a copy.

ghost use Rattle.std.specs.Prelude.{◌≡◌, ◌<◌, ◌≤◌};
ghost use Rattle.sim_layout.specs.Rounds.{threads_of};
ghost use Rattle.sim_layout.specs.Running.{state_of, IsSameNet};
ghost use Rattle.slot_sim.specs.Slots.{IsThreadedIn};
ghost use Rattle.journal_laws.specs.Steps.{OfTop, IsClosedRun};

use slot_sim::running::SlotSim;

/// Does closed cycles of a thread until its next one is open or `most` are done, and says how many.
pub fn run_closed(sim: &mut SlotSim, thread: usize, most: u32) -> u32
    requires thread { thread < threads_of sim.old.modules }
    requires threaded { IsThreadedIn sim.old.modules (threads_of sim.old.modules) }
    ensures net { IsSameNet sim.old sim.new }
    ensures most { result ≤ most }
    ensures run { OfTop sim.old (λ modules top count. IsClosedRun modules top count thread most result (state_of sim.old) (state_of sim.new)) }
{
    let _ = sim.threads();
    for done in 0..most {
        if sim.need(thread) {
            return done;
        }
        sim.pass(thread);
    }
    most
}
