// The first signal that depends on itself, with the instance that it stands in.

ghost use Rattle.std.specs.Prelude.{◌≡◌, ◌≤◌, length, slice_get, IfOk};
ghost use Rattle.verilog_meaning.specs.Cycles.{Path};
ghost use Rattle.sim_values.specs.Stands.{spot_of};
ghost use Rattle.sim_values.specs.Tree.{place_in};
ghost use Rattle.sim_layout.specs.Wires.{AreWires, signals_of};
ghost use Rattle.cycle_sim.specs.Opened.{IsOpenable, IsTopNumber};
ghost use Rattle.sim_loops.specs.First as spec;
ghost use Rattle.sim_loops.specs.Search as search;

use netlist::netlist::Module;
use sim_layout::given::roots;
use sim_layout::loops::first_site;
use sim_layout::place::place;
use sim_layout::wires::{base_at, module_signals, push_parts};
use sim_values::edge::Part;
use sim_values::settle::Step;
use sim_values::tree::tree_of;
use sqlite_items::Items;
use std::alloc::{AllocError, Global};

/// A signal of an instance.
#[derive(Drop)]
pub struct Looped {
    /// The instances that it stands in, the innermost first, each by its number in the module round it.
    pub path: Items<usize>,
    /// Its number in its module.
    pub signal: usize,
}

/// The place of the instance round the one at a place, where it is among so many: the last whose first instance stands no later.
/// The outermost has none.
#[tactic(auto, using(crate::proofs::InstancePath::outer_here, crate::proofs::InstancePath::behind_more))]
fn outer_place(children: &[usize], count: usize, place: usize) -> Option<usize>
    requires count { count ≤ length children.now }
    requires behind { search.AreBehind children.now count place }
    ensures { search.IsOuterPlace children.now (length children.now) place result }
{
    for behind in 0..count {
        let number = count - 1 - behind;
        if children[number] <= place {
            return Some(number);
        }
    }
    None
}

/// How many instances are to be looked at for the one round `outer`, which is the one round `inner`: none behind it, where it stands before `inner`, as
/// in a tree.
#[tactic(auto, using(crate::proofs::InstancePath::behind_outer))]
fn next_count(children: &[usize], outer: usize, inner: usize) -> usize
    requires { search.IsOuter children.now (length children.now) inner outer }
    ensures count { result ≤ length children.now }
    ensures behind { search.AreBehind children.now result outer }
{
    if outer <= inner {
        outer + 1
    } else {
        children.len()
    }
}

/// The path of the instance at a place.
fn path_of(alloc: Global, children: &[usize], place: usize) -> Result<Items<usize>, AllocError>
    ensures { IfOk result (λ path. (p : Path) → place_in children.now p ≡ place → search.IsNested children.now p → p ≡ path) }
{
    let mut path = Items::new(alloc);
    let mut inner = place;
    let mut count = children.len();
    // Each turn but the last adds an instance, of which there are no more than fit in memory.
    for _turn in 0..usize::MAX {
        match outer_place(children, count, inner) {
            Some(outer) => {
                path.push(inner - children[outer])?;
                count = next_count(children, outer, inner);
                inner = outer;
            }
            None => return Ok(path),
        }
    }
    Err(AllocError)
}

/// The steps of a net. Which numbers a choice gives its inputs is of no account to a loop.
fn wires_of(
    alloc: Global,
    modules: &[Module],
    top: usize,
    parts: &[Part],
) -> Result<Vec<Step>, AllocError>
    ensures { IfOk result (λ wires. AreWires modules.now parts.now (signals_of (slice_get modules.now top)) (spot_of (slice_get parts.now 0)).base 0 wires.items) }
{
    let mut wires = roots(alloc, base_at(parts, 0), module_signals(modules, top), 0)?;
    push_parts(&mut wires, modules, parts)?;
    Ok(wires)
}

/// The first signal of a net that depends on itself: in the instance that lies least deep, of these in the first, and there the first.
pub fn first_looped(
    alloc: Global,
    modules: &[Module],
    top: usize,
) -> Result<Option<Looped>, AllocError>
    requires openable { IsOpenable modules.now }
    requires top { IsTopNumber modules.now top }
    ensures { IfOk result (spec.IsLooped modules.now) }
{
    let tree = tree_of(alloc, modules, top)?;
    let placed = place(alloc, modules, &tree)?;
    let parts = placed.parts.as_slice();
    let wires = wires_of(alloc, modules, top, parts)?;
    match first_site(
        alloc,
        modules,
        parts,
        wires.as_slice(),
        placed.numbers.len(),
    )? {
        Some(site) => {
            let path = path_of(alloc, tree.children.as_slice(), site.part)?;
            Ok(Some(Looped {
                path,
                signal: site.signal,
            }))
        }
        None => Ok(None),
    }
}
