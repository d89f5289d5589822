// The net of a program under other choices than those of `top_rr`.

ghost use Rattle.cycle_sim.specs.Opened.{IsOpenable};

use crate::programs::adding;
use cycle_sim::sim::Sim;
use hls_compile::compile;
use hls_io::Bytes;
use net_netlist::netlist;
use netlist::netlist::Module;
use std::alloc::{AllocError, Global};
use std::test::Fail;
use verilog_reader::read::{ReadError, read};

/// One cycle in which all threads are enabled and each arbiter prefers thread 1, and whether done is then shown.
#[tactic(auto, using(cycle_sim::proofs::LockstepTurns::net_refl, cycle_sim::proofs::LockstepTurns::fits_round, cycle_sim::proofs::LockstepTurns::fits_all))]
fn cycle(sim: &mut Sim<'_>, out: &mut Bytes) -> Result<bool, AllocError> {
    let all = sim.all_enabled();
    let choice = sim.all_preferring(1)?;
    sim.cycle(&choice, out)?;
    Ok(sim.shows_done(&all))
}

/// Whether a net shows done after so many such cycles at most, and what it writes is this.
fn is_done(
    alloc: Global,
    modules: &[Module],
    cycles: u32,
    printed: &[u8],
) -> Result<bool, AllocError>
    requires { IsOpenable modules.now }
{
    let mut out = Bytes::new(alloc);
    let Ok(mut sim) = Sim::open(alloc, modules) else {
        return Ok(false);
    };
    for _ in 0..cycles {
        if cycle(&mut sim, &mut out)? {
            break;
        }
    }
    Ok(sim.done() && out.as_slice() == printed)
}

/// The same of the net that a Verilog text spells.
#[tactic(auto, using(crate::proofs::Opens::opens))]
fn is_done_by(alloc: Global, text: &[u8], cycles: u32, printed: &[u8]) -> Result<bool, ReadError> {
    let net = read(alloc, text)?;
    let made = netlist(alloc, &net)?;
    let is_done = is_done(alloc, made.modules.as_slice(), cycles, printed)?;
    Ok(is_done)
}

/// T is 4 and B is 64 * (24 + 1): 88,000 / 1,600 - 4 is 51, and the program ends after 50 steps. Where done is shown it stays.
#[test]
fn is_done_within_the_bound_on_steps(rt: HostRuntime) -> Result<(), Fail> {
    let built = compile(&rt, rt.alloc(), adding().as_bytes(), 1)?;
    let is_right = is_done_by(rt.alloc(), built.text.as_slice(), 88_000, b"3\n")?;
    assert!(rt; is_right);
    Ok(())
}
