// The units of a block.
ghost use Rattle.std.specs.Prelude.{◌≡◌, ◌≤◌, ◌∷◌, [], ◌++◌, ◌+◌, length, IfOk, OnOk, suc, true, ◌<◌, if◌then◌else◌};
ghost use Rattle.op_graph.specs.Graph.{kind_at, Fits, same_kind};
ghost use Rattle.unit_binding.specs.Units.{AreUnits, AreCounts, is_listed, IsGreatestUse};
ghost use Rattle.unit_binding.specs.Works.{IsBoundKind, AreBound};

use crate::kinds::share_units;
use crate::works::{take_over, works_of};
use interval_pack::pack_some;
use op_graph::node::{Kind, Node};
use std::alloc::{AllocError, Global};

/// How many units of a kind there are.
#[derive(Clone, Copy, PartialEq, Eq)]
pub struct UnitCount {
    pub kind: Kind,
    pub count: usize,
}

/// The unit of each operation among those of its kind, and how many units each kind has that shares them.
#[derive(Drop)]
pub struct Units {
    pub unit: Vec<usize>,
    pub counts: Vec<UnitCount>,
}

/// By start and then by index, each operation has the least unit of its kind that no operation at work in the same
/// states has. Operations that share no units have unit 0, each of a kind of its own. The only error is want of memory.
pub fn bind_units(alloc: Global, nodes: &[Node], starts: &[u64]) -> Result<Units, AllocError>
    requires starts { length nodes.now ≤ length starts.now }
    requires fits { Fits nodes.now starts.now }
    ensures units { IfOk result (λ u. AreUnits nodes.now starts.now u.unit.items) }
    ensures counts { IfOk result (λ u. AreCounts nodes.now starts.now u.counts.items) }
{
    let mut unit = vec![in alloc; 0; nodes.len()]?;
    let mut counts = Vec::new(alloc);
    for j in 0..nodes.len() {
        bind_kind_of(alloc, &mut unit, &mut counts, nodes, starts, j)?;
    }
    Ok(Units { unit, counts })
}

// Binds the operations of the kind of operation j, if that kind shares units and no operation before j is of it.
fn bind_kind_of(
    alloc: Global,
    unit: &mut Vec<usize>,
    counts: &mut Vec<UnitCount>,
    nodes: &[Node],
    starts: &[u64],
    j: usize,
) -> Result<(), AllocError>
    requires place { j < length nodes.now }
    requires starts { length nodes.now ≤ length starts.now }
    requires fits { Fits nodes.now starts.now }
    requires bound { AreBound nodes.now starts.now j unit.old.items counts.old.items }
    ensures { OnOk result (AreBound nodes.now starts.now (suc j) unit.new.items counts.new.items) }
{
    let kind = nodes[j].kind;
    let done = is_done(counts, kind);
    if done {
        return Ok(());
    }
    let count = bind_kind(alloc, unit, nodes, starts, kind)?;
    counts.push(UnitCount { kind, count })?;
    Ok(())
}

// Whether the kind shares no units, or is listed.
fn is_done(counts: &[UnitCount], kind: Kind) -> bool
    ensures { result ≡ (if same_kind kind kind then is_listed counts.now kind else true) }
{
    if share_units(kind, kind) {
        is_listed(counts, kind)
    } else {
        true
    }
}

fn is_listed(counts: &[UnitCount], kind: Kind) -> bool
    ensures { result ≡ is_listed counts.now kind }
{
    counts.iter().any(|c| share_units(c.kind, kind))
}

// Binds the operations of one kind, and says how many units they need.
fn bind_kind(
    alloc: Global,
    unit: &mut Vec<usize>,
    nodes: &[Node],
    starts: &[u64],
    kind: Kind,
) -> Result<usize, AllocError>
    requires unit { length unit.old.items ≡ length nodes.now }
    requires starts { length nodes.now ≤ length starts.now }
    requires fits { Fits nodes.now starts.now }
    ensures bound { OnOk result (IsBoundKind nodes.now starts.now kind unit.old.items unit.new.items) }
    ensures count { IfOk result (λ count. IsGreatestUse nodes.now starts.now kind count) }
{
    let works = works_of(alloc, nodes, starts, kind)?;
    let packing = pack_some(alloc, &works)?;
    take_over(unit, nodes, kind, &packing.row);
    Ok(packing.rows)
}
