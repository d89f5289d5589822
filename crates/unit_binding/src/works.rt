// The states in which operations of one kind work, and their units.
ghost use Rattle.std.specs.Prelude.{◌≡◌, ℕ, ◌+◌, ◌^◌, ◌<◌, ◌≤◌, length, slice_index, IfOk, if◌then◌else◌};
ghost use Rattle.interval_pack.specs.Packing.{at};
ghost use Rattle.op_graph.specs.Graph.{kind_at, latency_at, same_kind, Fits};
ghost use Rattle.unit_binding.specs.Works.{AreWorks, work_of, IsTakenOver};

use crate::kinds::share_units;
use interval_pack::Interval;
use op_graph::node::{Kind, Node};
use std::alloc::{AllocError, Global};

/// For each operation of the kind the states in which it works, and none for the others.
pub fn works_of(
    alloc: Global,
    nodes: &[Node],
    starts: &[u64],
    kind: Kind,
) -> Result<Vec<Interval>, AllocError>
    requires starts { length nodes.now ≤ length starts.now }
    requires fits { Fits nodes.now starts.now }
    ensures { IfOk result (λ works. AreWorks nodes.now starts.now kind works.items) }
{
    let mut works = Vec::with_capacity(alloc, nodes.len())?;
    for i in 0..nodes.len() {
        works.push(work(nodes, starts, kind, i))?;
    }
    Ok(works)
}

fn work(nodes: &[Node], starts: &[u64], kind: Kind, i: usize) -> Interval
    requires place { i < length nodes.now }
    requires starts { length nodes.now ≤ length starts.now }
    requires fits { Fits nodes.now starts.now }
    ensures { result ≡ work_of nodes.now starts.now kind i }
{
    if !share_units(kind, nodes[i].kind) {
        return Interval { start: 0, end: 0 };
    }
    Interval {
        start: starts[i],
        end: starts[i] + u64::from(nodes[i].kind.latency()),
    }
}

/// Gives the operations of the kind these units.
pub fn take_over(unit: &mut Vec<usize>, nodes: &[Node], kind: Kind, row: &[usize])
    requires unit { length unit.old.items ≡ length nodes.now }
    requires row { length row.now ≡ length nodes.now }
    ensures { IsTakenOver nodes.now kind row.now (length nodes.now) unit.old.items unit.new.items }
{
    for i in 0..nodes.len() {
        unit[i] = chosen(share_units(kind, nodes[i].kind), row[i], unit[i]);
    }
}

fn chosen(takes: bool, new: usize, old: usize) -> usize
    ensures { result ≡ (if takes then new else old) }
{
    if takes { new } else { old }
}
