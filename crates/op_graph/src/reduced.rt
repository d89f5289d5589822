// The constraints of a block for a planner: those of neighbouring accesses alone.
ghost use Rattle.std.specs.Prelude.{◌≡◌, ◌+◌, ◌-◌, ◌*◌, ◌<◌, ◌≤◌, ◌++◌, length, IfOk, OnOk, suc};
ghost use Rattle.std.specs.List.{All};
ghost use Rattle.schedule_sdc.specs.Solution.{IsWithin};
ghost use Rattle.op_graph.specs.Graph.{UseEarlier, kind_at};
ghost use Rattle.op_graph.specs.Table.{AreRows, HasItsSolutions};
ghost use Rattle.op_graph.specs.Reduced.{AreLast, AreFirst, global_at, write_at, after_write};
ghost use Rattle.op_graph.specs.Reduced.{global_rows, all_globals, array_rows, all_arrays, read_rows, all_reads};

use crate::node::{Kind, Node};
use crate::rows::{put, put_ends, put_uses};
use crate::table::gap_after;
use schedule_sdc::constraint::Constraint;
use std::alloc::{AllocError, Global};
use std::collections::BTreeMap;

/// Constraints with the same solutions as the table of the block, at most ten for each operation.
/// For n operations it takes time in proportion to n log n. The only error is want of memory.
pub fn reduced_constraints(alloc: Global, nodes: &[Node]) -> Result<Vec<Constraint>, AllocError>
    requires { UseEarlier nodes.now }
    ensures rows { IfOk result (λ list. AreRows nodes.now list.items) }
    ensures same { IfOk result (λ list. HasItsSolutions nodes.now list.items) }
    ensures places { IfOk result (λ list. All (IsWithin (length nodes.now + 1)) list.items) }
    ensures few { IfOk result (λ list. length list.items ≤ 10 * length nodes.now) }
{
    let mut list = Vec::new(alloc);
    put_uses(&mut list, nodes)?;
    put_globals(alloc, &mut list, nodes)?;
    put_arrays(alloc, &mut list, nodes)?;
    put_reads(alloc, &mut list, nodes)?;
    put_ends(&mut list, nodes)?;
    Ok(list)
}

fn put_globals(alloc: Global, list: &mut Vec<Constraint>, nodes: &[Node]) -> Result<(), AllocError>
    ensures { OnOk result (list.new.items ≡ list.old.items ++ all_globals nodes.now (length nodes.now)) }
{
    let mut last = BTreeMap::new(alloc);
    for j in 0..nodes.len() {
        put_global(list, &mut last, nodes, j)?;
    }
    Ok(())
}

// Operation j, if it accesses a global, after the access before it.
fn put_global(
    list: &mut Vec<Constraint>,
    last: &mut BTreeMap<u32, usize>,
    nodes: &[Node],
    j: usize,
) -> Result<(), AllocError>
    requires place { j < length nodes.now }
    requires last { AreLast (global_at nodes.now) j last.old }
    ensures list { OnOk result (list.new.items ≡ list.old.items ++ global_rows nodes.now j (kind_at nodes.now j)) }
    ensures last { OnOk result (AreLast (global_at nodes.now) (suc j) last.new) }
{
    let Kind::Global { object, .. } = nodes[j].kind else {
        return Ok(());
    };
    match last.insert(object, j)? {
        Some(i) => put(list, i, j, gap_after(nodes[i].kind.writes())),
        None => Ok(()),
    }
}

fn put_arrays(alloc: Global, list: &mut Vec<Constraint>, nodes: &[Node]) -> Result<(), AllocError>
    ensures { OnOk result (list.new.items ≡ list.old.items ++ all_arrays nodes.now (length nodes.now)) }
{
    let mut last = BTreeMap::new(alloc);
    for j in 0..nodes.len() {
        put_array(list, &mut last, nodes, j)?;
    }
    Ok(())
}

// Operation j, if it accesses a local array, after the last write before it.
fn put_array(
    list: &mut Vec<Constraint>,
    last: &mut BTreeMap<u32, usize>,
    nodes: &[Node],
    j: usize,
) -> Result<(), AllocError>
    requires place { j < length nodes.now }
    requires last { AreLast (write_at nodes.now) j last.old }
    ensures list { OnOk result (list.new.items ≡ list.old.items ++ array_rows nodes.now j (kind_at nodes.now j)) }
    ensures last { OnOk result (AreLast (write_at nodes.now) (suc j) last.new) }
{
    let Kind::Array { object, writes } = nodes[j].kind else {
        return Ok(());
    };
    if writes {
        let before = last.insert(object, j)?;
        put_after_write(list, before, j)
    } else {
        put_after_write(list, last.get(&object).copied(), j)
    }
}

fn put_after_write(
    list: &mut Vec<Constraint>,
    before: Option<usize>,
    j: usize,
) -> Result<(), AllocError>
    ensures { OnOk result (list.new.items ≡ list.old.items ++ after_write j before) }
{
    match before {
        Some(i) => put(list, i, j, 1),
        None => Ok(()),
    }
}

fn put_reads(alloc: Global, list: &mut Vec<Constraint>, nodes: &[Node]) -> Result<(), AllocError>
    ensures { OnOk result (list.new.items ≡ list.old.items ++ all_reads nodes.now (length nodes.now)) }
{
    let mut next = BTreeMap::new(alloc);
    for behind in 0..nodes.len() {
        put_read(list, &mut next, nodes, behind)?;
    }
    Ok(())
}

// The operation with so many behind it, if it reads a local array, before the first write after it.
fn put_read(
    list: &mut Vec<Constraint>,
    next: &mut BTreeMap<u32, usize>,
    nodes: &[Node],
    behind: usize,
) -> Result<(), AllocError>
    requires place { behind < length nodes.now }
    requires next { AreFirst (write_at nodes.now) (length nodes.now - behind) behind next.old }
    ensures list { let i = length nodes.now - suc behind in OnOk result (list.new.items ≡ list.old.items ++ read_rows nodes.now i behind (kind_at nodes.now i)) }
    ensures next { OnOk result (AreFirst (write_at nodes.now) (length nodes.now - suc behind) (suc behind) next.new) }
{
    let i = nodes.len() - 1 - behind;
    let Kind::Array { object, writes } = nodes[i].kind else {
        return Ok(());
    };
    if writes {
        next.insert(object, i)?;
        return Ok(());
    }
    match next.get(&object) {
        Some(j) => put(list, i, *j, 1),
        None => Ok(()),
    }
}
