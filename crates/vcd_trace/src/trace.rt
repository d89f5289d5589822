// The dump of a run, written while the simulator steps.

ghost use Rattle.std.specs.Prelude.{◌≡◌, ℕ, ◌+◌, ◌<◌, List, ◌++◌, [], map, length, slice_index, OnOk, IfOk, IfErr};
ghost use Rattle.cycle_sim.specs.Opened.{IsOpenable, IsCause};
ghost use Rattle.cycle_sim.specs.Round.{IsBegun};
ghost use Rattle.sim_layout.specs.Rounds.{threads_of, round};
ghost use Rattle.sim_layout.specs.Running.{IsCycleOf, IsSameNet};
ghost use Rattle.vcd_text.specs.Dump as dump;
ghost use Rattle.net_registers.specs.Heads.{IsListing};
ghost use Rattle.vcd_trace.specs.Trace.{IsTraced};
ghost use Rattle.vcd_trace.specs.Tracing.{IsTracing};

use cycle_sim::sim::{OpenError, Sim};
use hls_io::Bytes;
use net_registers::listing::Listing;
use net_registers::registers::{numbers, registers};
use netlist::netlist::Module;
use sqlite_items::Items;
use std::alloc::{AllocError, Global};
use vcd_text::{put_first_frame, put_frame};

/// A dump, the number of cycles in it, and whether done is shown after them.
#[derive(Drop)]
pub struct Traced {
    pub text: Bytes,
    pub cycles: u32,
    pub is_done: bool,
}

/// Appends the frame of the state that a simulator stands in, and gives the numbers of its registers.
fn begin(
    alloc: Global,
    sim: &Sim<'_>,
    listing: &Listing,
    text: &mut Bytes,
) -> Result<Items<u64>, AllocError>
    requires { IsListing sim.now listing.now }
    ensures numbers { IfOk result (λ first. first ≡ map (slice_index sim.now.numbers) listing.now.places) }
    ensures fit { IfOk result (dump.AreValues listing.now.widths) }
    ensures text { IfOk result (λ first. text.new ≡ text.old ++ dump.first_frame listing.now.widths first) }
{
    let first = numbers(alloc, sim, listing)?;
    let widths = listing.widths.as_slice();
    put_first_frame(alloc, text, widths, first.as_slice())?;
    Ok(first)
}

/// Runs the cycle of a number, appends its frame, and gives the numbers of the registers behind it.
fn add_cycle(
    alloc: Global,
    sim: &mut Sim<'_>,
    listing: &Listing,
    number: u32,
    text: &mut Bytes,
    before: &[u64],
) -> Result<Items<u64>, AllocError>
    requires listing { IsListing sim.old listing.now }
    requires last { number < 4294967295 }
    requires before { length before.now ≡ length listing.now.widths }
    ensures net { OnOk result (IsSameNet sim.old sim.new) }
    ensures cycle { OnOk result ((out : List ℕ) × IsCycleOf (round (threads_of sim.old.modules) sim.old.prefs number) sim.old sim.new [] out) }
    ensures numbers { IfOk result (λ next. next ≡ map (slice_index sim.new.numbers) listing.now.places) }
    ensures fit { IfOk result (dump.AreValues listing.now.widths) }
    ensures text { IfOk result (λ next. text.new ≡ text.old ++ dump.frame (number + 1) listing.now.widths before.now next) }
{
    let choice = sim.all_preferring((number % 16) as u64)?;
    let _ = sim.parts();
    sim.pass(&choice);
    let next = numbers(alloc, sim, listing)?;
    let widths = listing.widths.as_slice();
    put_frame(alloc, text, number + 1, widths, before, next.as_slice())?;
    Ok(next)
}

/// Traces a simulator that stands in its initial state.
fn trace_from(
    alloc: Global,
    sim: &mut Sim<'_>,
    listing: Listing,
    cycles: u32,
) -> Result<Traced, AllocError>
    requires begun { IsBegun sim.old }
    requires listing { IsListing sim.old listing }
    ensures { IfOk result (λ t. IsTraced sim.old.modules (threads_of sim.old.modules) cycles t.cycles t.is_done t.text) }
{
    let _ = listing.count();
    let _ = sim.parts();
    let mut text = Bytes::from_slice(alloc, listing.head.as_slice())?;
    let mut numbers = begin(alloc, sim, &listing, &mut text)?;
    for number in 0..cycles {
        if sim.done() {
            return Ok(Traced {
                text,
                cycles: number,
                is_done: true,
            });
        }
        let before = numbers.as_slice();
        numbers = add_cycle(alloc, sim, &listing, number, &mut text, before)?;
    }
    let is_done = sim.done();
    Ok(Traced {
        text,
        cycles,
        is_done,
    })
}

/// The dump of a net's run until done is shown, and of so many cycles at most. An error has its cause in the net, or memory is
/// wanting.
pub fn trace(alloc: Global, modules: &[Module], cycles: u32) -> Result<Traced, OpenError>
    requires { IsOpenable modules.now }
    ensures ok { IfOk result (λ t. IsTraced modules.now (threads_of modules.now) cycles t.cycles t.is_done t.text) }
    ensures cause { IfErr result (IsCause modules.now) }
{
    let mut sim = Sim::open(alloc, modules)?;
    let listing = registers(alloc, &sim)?;
    let traced = trace_from(alloc, &mut sim, listing, cycles)?;
    Ok(traced)
}
