// A simulator of a net of threads.

ghost use Rattle.std.specs.Prelude.{◌≡◌, ◌≤◌, IfOk};
ghost use Rattle.sim_layout.specs.Rounds.{threads_of};
ghost use Rattle.cycle_sim.specs.Opened.{IsOpenable, IsOpened};
ghost use Rattle.cycle_sim.specs.declared.sim.OpenError.TheVariants as causes;
ghost use Rattle.slot_sim.specs.Slots.{IsThreadedIn};

use crate::running::SlotSim;
use cycle_sim::sim::OpenError;
use netlist::netlist::Module;
use std::alloc::{AllocError, Global};

/// What an error is where none but want of memory can come.
fn memory_alone(error: OpenError) -> AllocError
    requires { error ≡ causes.Memory }
{
    match error {
        OpenError::Memory => AllocError,
        OpenError::Loop { .. } => unreachable!(),
    }
}

/// A simulator of a net of threads in its initial state. Memory alone can be wanting: no signal of such a net depends on itself.
pub fn open_threaded<'a>(
    alloc: Global,
    modules: &'a [Module],
    threads: usize,
) -> Result<SlotSim<'a>, AllocError>
    requires openable { IsOpenable modules.now }
    requires few { threads ≤ 64 }
    requires threads { threads ≡ threads_of modules.now }
    requires threaded { IsThreadedIn modules.now threads }
    ensures { IfOk result (IsOpened modules.entry.now) }
{
    match SlotSim::open(alloc, modules, threads) {
        Ok(sim) => Ok(sim),
        Err(error) => Err(memory_alone(error)),
    }
}
