// The parts of a simulator that stand in one instance.

ghost use Rattle.std.specs.Prelude.{◌≡◌, ◌+◌, ◌++◌, ◌<◌, length, slice_get, slice_index, IfOk, OnOk};
ghost use Rattle.sim_values.specs.Stands.{children_of};
ghost use Rattle.slot_sim.specs.Members.{places_from, inner_of, AreCollected, AreMembersOf};

use cycle_sim::sim::Sim;
use netlist::netlist::{Instance, Module};
use sim_layout::wires::further;
use sim_values::edge::Part;
use sim_values::tree::module_instances;
use sqlite_items::at;
use std::alloc::{AllocError, Global};

fn push_places(
    places: &mut Vec<usize>,
    start: usize,
    instances: &[Instance],
) -> Result<(), AllocError>
    ensures { OnOk result (places.new.items ≡ places.old.items ++ places_from start instances.now) }
{
    for number in 0..instances.len() {
        places.push(further(start, number)?)?;
    }
    Ok(())
}

/// The place of the first part that stands in the one at a place.
pub fn children_at(parts: &[Part], place: usize) -> usize
    ensures { result ≡ children_of (slice_get parts.now place) }
{
    match at(parts, place) {
        Some(part) => part.children,
        None => 0,
    }
}

/// Adds the parts that stand in the one listed at a number.
fn visit(
    places: &mut Vec<usize>,
    modules: &[Module],
    parts: &[Part],
    number: usize,
) -> Result<(), AllocError>
    requires { number < length places.old.items }
    ensures { OnOk result (places.new.items ≡ places.old.items
        ++ places_from (children_of (slice_get parts.now (slice_index places.old.items number))) (inner_of modules.now (slice_get parts.now (slice_index places.old.items number)))) }
{
    match at(parts, places[number]) {
        Some(part) => push_places(
            places,
            part.children,
            module_instances(modules, part.module),
        ),
        None => Ok(()),
    }
}

/// The part at a place, and all that stand in it.
#[tactic(auto, using(crate::proofs::CollectedParts::collected_one, crate::proofs::CollectedParts::collected_all))]
fn collected(
    alloc: Global,
    modules: &[Module],
    parts: &[Part],
    first: usize,
) -> Result<Vec<usize>, AllocError>
    ensures { IfOk result (λ places. AreCollected modules.now parts.now first (length places.items) places.items) }
{
    let mut places = Vec::new(alloc);
    places.push(first)?;
    for number in 0..usize::MAX {
        if number >= places.len() {
            return Ok(places);
        }
        visit(&mut places, modules, parts, number)?;
    }
    Err(AllocError)
}

/// The places of the parts of the instance whose part stands at `first`, and of all that stand in it.
pub fn members_of(alloc: Global, sim: &Sim, first: usize) -> Result<Vec<usize>, AllocError>
    ensures members { IfOk result (λ places. AreMembersOf sim.now first places.items) }
{
    collected(alloc, sim.modules(), sim.parts(), first)
}
