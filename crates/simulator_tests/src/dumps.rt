// The dump of a run.

ghost use Rattle.cycle_sim.specs.Opened.{IsOpenable};

use crate::nets::{dumped, net_of};
use cycle_sim::sim::OpenError;
use netlist::netlist::Module;
use std::alloc::Global;
use std::test::Fail;
use vcd_trace::trace::trace;

/// `q_0` is 0, 1 and 2, and done is shown then.
fn dump() -> &'static str {
    "$timescale 1 ns $end\n$scope module top $end\n$var reg 2 ! q_0 $end\n$upscope $end\n$enddefinitions $end\n\
    #0\n$dumpvars\nb0 !\n$end\n#1\nb1 !\n#2\nb10 !\n"
}

fn is_dumped(alloc: Global, modules: &[Module]) -> Result<bool, OpenError>
    requires { IsOpenable modules.now }
{
    let traced = trace(alloc, modules, 9)?;
    Ok(traced.cycles == 2 && traced.is_done && traced.text.as_slice() == dump().as_bytes())
}

#[test]
fn a_run_is_dumped(rt: HostRuntime) -> Result<(), Fail> {
    let net = net_of(rt.alloc(), dumped())?;
    let is_dumped = is_dumped(rt.alloc(), net.modules.as_slice())?;
    assert!(rt; is_dumped);
    Ok(())
}
