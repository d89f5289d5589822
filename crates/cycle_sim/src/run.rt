// The run, until done is shown or all cycles have run.

ghost use Rattle.std.specs.Prelude.{◌≡◌, Some, IfOk, IfErr};
ghost use Rattle.netlist.specs.declared.netlist.Module as netlist_module;
ghost use Rattle.verilog_meaning.specs.Names.{top_of};
ghost use Rattle.verilog_meaning.specs.Threads.{Place, Depends};
ghost use Rattle.cycle_sim.specs.Opened.{IsOpenable, IsCause};
ghost use Rattle.sim_layout.specs.Rounds.{threads_of};
ghost use Rattle.cycle_sim.specs.Round.{IsBegun, IsRound};

use crate::sim::{OpenError, Sim};
use hls_io::Bytes;
use netlist::netlist::Module;
use std::alloc::{AllocError, Global};

/// How a run ended, and what it wrote.
#[derive(Drop)]
pub struct Ran {
    pub cycles: u32,
    pub is_done: bool,
    pub printed: Bytes,
}

/// Runs a simulator that stands in its initial state.
fn turn(alloc: Global, sim: &mut Sim<'_>, cycles: u32) -> Result<Ran, AllocError>
    requires { IsBegun sim.old }
    ensures { IfOk result (λ r. IsRound sim.old.modules (threads_of sim.old.modules) cycles r.cycles r.is_done r.printed) }
{
    let mut printed = Bytes::new(alloc);
    let ran = sim.lockstep(cycles, &mut printed)?;
    if ran < cycles {
        return Ok(Ran {
            cycles: ran,
            is_done: true,
            printed,
        });
    }
    let is_done = sim.done();
    Ok(Ran {
        cycles: ran,
        is_done,
        printed,
    })
}

/// Runs a net until done is shown, and for so many cycles at most. It runs only where no signal depends on itself: an error has its cause in the net,
/// or memory is wanting.
pub fn run(alloc: Global, modules: &[Module], cycles: u32) -> Result<Ran, OpenError>
    requires { IsOpenable modules.now }
    ensures ok { IfOk result (λ r. IsRound modules.now (threads_of modules.now) cycles r.cycles r.is_done r.printed) }
    ensures loopless { IfOk result (λ _. (top : netlist_module.Module) → top_of modules.now ≡ Some top → (p : Place) → Depends modules.now top p p → ⊥) }
    ensures cause { IfErr result (IsCause modules.now) }
{
    let mut sim = Sim::open(alloc, modules)?;
    let ran = turn(alloc, &mut sim, cycles)?;
    Ok(ran)
}
