// A walk through the instances of a net, each before those in it and those side by side in order.

ghost use Rattle.std.specs.Prelude.{◌≡◌, ◌++◌, ◌∷◌, [], OnOk, IfOk, slice_get};
ghost use Rattle.sim_values.specs.Stands.{kind_of, children_of};
ghost use Rattle.sim_layout.specs.Running.{Running};
ghost use Rattle.net_registers.specs.Walks.{IsWalk, Enters, EntersSome, first_listing};

use crate::listing::Listing;
use cycle_sim::sim::Sim;
use netlist::netlist::{Instance, Module};
use sim_layout::wires::{base_at, further};
use sim_values::edge::{Part, kind_at_root};
use sim_values::tree::module_instances;
use sqlite_items::at;
use std::alloc::{AllocError, Global};
use verilog_tree::name::Identifier;

/// An instance that is entered and not left, by its place among the parts, and the number of the next one in it.
#[derive(Clone, Copy)]
pub struct Frame {
    pub part: usize,
    pub next: usize,
}

fn kind_at(parts: &[Part], place: usize) -> usize
    ensures { result ≡ kind_of (slice_get parts.now place) }
{
    match at(parts, place) {
        Some(part) => part.module,
        None => 0,
    }
}

fn children_at(parts: &[Part], place: usize) -> usize
    ensures { result ≡ children_of (slice_get parts.now place) }
{
    match at(parts, place) {
        Some(part) => part.children,
        None => 0,
    }
}

/// Enters a module, whose instance stands at a place among the parts.
fn enter(
    sim: &Sim<'_>,
    name: &Identifier,
    child: usize,
    module: &Module,
    frames: &mut Vec<Frame>,
    listing: &mut Listing,
) -> Result<(), AllocError>
    ensures { OnOk result (Enters sim.now.parts name.now child module.now frames.old.items frames.new.items listing.old listing.new) }
{
    listing.enter(name)?;
    let base = base_at(sim.parts(), child);
    listing.add_signals(base, module.signals.as_slice())?;
    frames.push(Frame {
        part: child,
        next: 0,
    })?;
    Ok(())
}

/// Enters an instance, if there is its module.
fn enter_instance(
    sim: &Sim<'_>,
    instance: &Instance,
    child: usize,
    frames: &mut Vec<Frame>,
    listing: &mut Listing,
) -> Result<(), AllocError>
    ensures { OnOk result (EntersSome sim.now.parts instance.now.name child (slice_get sim.now.modules instance.now.of)
        frames.old.items frames.new.items listing.old listing.new) }
{
    match at(sim.modules(), instance.of) {
        Some(module) => enter(sim, &instance.name, child, module, frames, listing),
        None => Ok(()),
    }
}

/// Goes on in an instance, which the stack has lost: enters the next one in it, or leaves it.
fn go_on(
    sim: &Sim<'_>,
    frame: Frame,
    frames: &mut Vec<Frame>,
    listing: &mut Listing,
) -> Result<(), AllocError>
    requires { IsWalk sim.now (frames.old.items ++ frame ∷ []) listing.old }
    ensures { OnOk result (IsWalk sim.now frames.new.items listing.new) }
{
    let parts = sim.parts();
    let kind = kind_at(parts, frame.part);
    match at(module_instances(sim.modules(), kind), frame.next) {
        None => {
            listing.leave()?;
            Ok(())
        }
        Some(instance) => {
            let next = further(frame.next, 1)?;
            let child = further(children_at(parts, frame.part), frame.next)?;
            frames.push(Frame {
                part: frame.part,
                next,
            })?;
            enter_instance(sim, instance, child, frames, listing)?;
            Ok(())
        }
    }
}

/// Enters the outermost module.
fn begin(sim: &Sim<'_>, frames: &mut Vec<Frame>, listing: &mut Listing) -> Result<(), AllocError>
    requires frames { frames.old.items ≡ [] }
    requires listing { listing.old ≡ first_listing }
    ensures { OnOk result (IsWalk sim.now frames.new.items listing.new) }
{
    match at(sim.modules(), kind_at_root(sim.parts())) {
        Some(top) => {
            enter(sim, &top.name, 0, top, frames, listing)?;
            Ok(())
        }
        None => Err(AllocError),
    }
}

/// The registers of a simulator's net, and a dump's head but its last line.
pub fn walk(alloc: Global, sim: &Sim<'_>) -> Result<Listing, AllocError>
    ensures { IfOk result (IsWalk sim.now []) }
{
    let mut listing = Listing::new(alloc)?;
    let mut frames = Vec::new(alloc);
    begin(sim, &mut frames, &mut listing)?;
    for _turn in 0..usize::MAX {
        match frames.pop() {
            Some(frame) => go_on(sim, frame, &mut frames, &mut listing)?,
            None => return Ok(listing),
        }
    }
    Err(AllocError)
}
