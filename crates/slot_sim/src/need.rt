// What the simulator tells of one thread.

ghost use Rattle.std.specs.Prelude.{◌≡◌, ℕ, ◌^◌, ◌<◌, []};
ghost use Rattle.verilog_meaning.specs.Threads.{alone as alone_of};
ghost use Rattle.sim_layout.specs.Running.{choice_of, Fits, IsSettledRun, IsSameNet, IsSameState};
ghost use Rattle.slot_sim.specs.Slots.{IsNeedPlace, TellsNeed};

use cycle_sim::sim::Sim;
use sim_values::settle::Choice;

/// Whether the output `need`, which stands at a place, is 1 under the choice of one thread alone. The state stays, and the numbers
/// are settled under that choice.
pub fn tells_need(sim: &mut Sim, choice: &Choice, place: usize) -> bool
    requires { Fits sim.old (choice_of choice.now) }
    ensures net { IsSameNet sim.old sim.new }
    ensures need { (threads i : ℕ) → choice_of choice.now ≡ alone_of i → IsNeedPlace threads i sim.old.modules sim.old.parts place → TellsNeed threads i sim.old result }
    ensures state { IsSameState sim.old sim.new }
    ensures settled { IsSettledRun (choice_of choice.now) sim.old sim.new }
{
    sim.settle_under(choice);
    sim.number(place) == 1
}
