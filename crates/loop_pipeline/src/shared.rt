// The accesses of one local array from iteration to iteration. Those of an iteration keep their order already, so each
// access is linked with the first and the last write of its array alone.
ghost use Rattle.std.specs.Prelude.{◌≡◌, ◌+◌, ◌-◌, ◌<◌, ◌++◌, length, IfOk, OnOk, suc};
ghost use Rattle.op_graph.specs.Graph.{kind_at};
ghost use Rattle.op_graph.specs.Reduced.{AreLast, AreFirst, write_at, first_from, last_below};
ghost use Rattle.loop_pipeline.specs.Listed.{shared_rows, shared_at, to_first, from_last};

use crate::table::put;
use op_graph::node::{Kind, Node};
use schedule_sdc::constraint::Constraint;
use std::alloc::{AllocError, Global};
use std::collections::BTreeMap;

/// Accesses of one array, one of them a write: those of an iteration come before those of the next one.
pub(crate) fn put_shared(
    alloc: Global,
    list: &mut Vec<Constraint>,
    nodes: &[Node],
    gap: i64,
) -> Result<(), AllocError>
    ensures { OnOk result (list.new.items ≡ list.old.items ++ shared_rows nodes.now gap (length nodes.now)) }
{
    let first = first_writes(alloc, nodes)?;
    let last = last_writes(alloc, nodes)?;
    for j in 0..nodes.len() {
        put_access(list, &first, &last, nodes, j, gap)?;
    }
    Ok(())
}

// Of each array its last write.
fn last_writes(alloc: Global, nodes: &[Node]) -> Result<BTreeMap<u32, usize>, AllocError>
    ensures { IfOk result (AreLast (write_at nodes.now) (length nodes.now)) }
{
    let mut last = BTreeMap::new(alloc);
    for j in 0..nodes.len() {
        put_last(&mut last, nodes, j)?;
    }
    Ok(last)
}

fn put_last(last: &mut BTreeMap<u32, usize>, nodes: &[Node], j: usize) -> Result<(), AllocError>
    requires place { j < length nodes.now }
    requires last { AreLast (write_at nodes.now) j last.old }
    ensures { OnOk result (AreLast (write_at nodes.now) (suc j) last.new) }
{
    let Kind::Array { object, writes } = nodes[j].kind else {
        return Ok(());
    };
    if writes {
        last.insert(object, j)?;
    }
    Ok(())
}

// Of each array its first write.
fn first_writes(alloc: Global, nodes: &[Node]) -> Result<BTreeMap<u32, usize>, AllocError>
    ensures { IfOk result (AreFirst (write_at nodes.now) 0 (length nodes.now)) }
{
    let mut first = BTreeMap::new(alloc);
    for behind in 0..nodes.len() {
        put_first(&mut first, nodes, behind)?;
    }
    Ok(first)
}

// The operation with so many behind it, if it writes an array.
fn put_first(
    first: &mut BTreeMap<u32, usize>,
    nodes: &[Node],
    behind: usize,
) -> Result<(), AllocError>
    requires place { behind < length nodes.now }
    requires first { AreFirst (write_at nodes.now) (length nodes.now - behind) behind first.old }
    ensures { OnOk result (AreFirst (write_at nodes.now) (length nodes.now - suc behind) (suc behind) first.new) }
{
    let i = nodes.len() - 1 - behind;
    let Kind::Array { object, writes } = nodes[i].kind else {
        return Ok(());
    };
    if writes {
        first.insert(object, i)?;
    }
    Ok(())
}

// Operation j, if it accesses a local array: before the array's first write in the next iteration, and after its last
// write in the one before.
fn put_access(
    list: &mut Vec<Constraint>,
    first: &BTreeMap<u32, usize>,
    last: &BTreeMap<u32, usize>,
    nodes: &[Node],
    j: usize,
    gap: i64,
) -> Result<(), AllocError>
    requires place { j < length nodes.now }
    requires first { AreFirst (write_at nodes.now) 0 (length nodes.now) first.now }
    requires last { AreLast (write_at nodes.now) (length nodes.now) last.now }
    ensures { OnOk result (list.new.items ≡ list.old.items ++ shared_at nodes.now gap j (kind_at nodes.now j)) }
{
    let Kind::Array { object, .. } = nodes[j].kind else {
        return Ok(());
    };
    put_to_first(list, j, first.get(&object).copied(), gap)?;
    put_from_last(list, j, last.get(&object).copied(), gap)
}

fn put_to_first(
    list: &mut Vec<Constraint>,
    j: usize,
    first: Option<usize>,
    gap: i64,
) -> Result<(), AllocError>
    ensures { OnOk result (list.new.items ≡ list.old.items ++ to_first gap j first) }
{
    match first {
        Some(write) => put(list, j, write, gap),
        None => Ok(()),
    }
}

fn put_from_last(
    list: &mut Vec<Constraint>,
    j: usize,
    last: Option<usize>,
    gap: i64,
) -> Result<(), AllocError>
    ensures { OnOk result (list.new.items ≡ list.old.items ++ from_last gap j last) }
{
    match last {
        Some(write) => put(list, write, j, gap),
        None => Ok(()),
    }
}
