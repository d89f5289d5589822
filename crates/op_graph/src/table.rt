// The table of the constraints of a block.
ghost use Rattle.std.specs.Prelude.{◌≡◌, ℕ, ◌<◌, ◌++◌, length, IfOk, OnOk};
ghost use Rattle.schedule_sdc.specs.Solution.{IsSolution};
ghost use Rattle.op_graph.specs.Graph.{UseEarlier, time_before};
ghost use Rattle.op_graph.specs.Table.{IsTable, gap_after};
ghost use Rattle.op_graph.specs.Listed.{all_orders, order_rows, order_gap, gap_rows};

use crate::node::{Kind, Node};
use crate::rows::{put, put_ends, put_uses};
use schedule_sdc::constraint::Constraint;
use std::alloc::{AllocError, Global};

/// The constraints on the starts of a block's operations and of its end: every row of the table, and so one for each
/// two accesses of one global. A planner takes `reduced_constraints`. The only error is want of memory.
pub fn constraints(alloc: Global, nodes: &[Node]) -> Result<Vec<Constraint>, AllocError>
    requires { UseEarlier nodes.now }
    ensures table { IfOk result (λ list. IsTable nodes.now list.items) }

    // The operations one after another, each at the sum of the latencies before it, meet it.
    ensures one_by_one { IfOk result (λ list. IsSolution list.items (time_before nodes.now)) }
{
    let mut list = Vec::new(alloc);
    put_uses(&mut list, nodes)?;
    put_orders(&mut list, nodes)?;
    put_ends(&mut list, nodes)?;
    Ok(list)
}

fn put_orders(list: &mut Vec<Constraint>, nodes: &[Node]) -> Result<(), AllocError>
    ensures { OnOk result (list.new.items ≡ list.old.items ++ all_orders nodes.now (length nodes.now)) }
{
    for j in 0..nodes.len() {
        put_orders_into(list, nodes, j)?;
    }
    Ok(())
}

// The accesses before operation j that it must follow.
fn put_orders_into(list: &mut Vec<Constraint>, nodes: &[Node], j: usize) -> Result<(), AllocError>
    requires { j < length nodes.now }
    ensures { OnOk result (list.new.items ≡ list.old.items ++ order_rows nodes.now j j) }
{
    for i in 0..j {
        put_gap(list, i, j, order_gap(nodes[i].kind, nodes[j].kind))?;
    }
    Ok(())
}

fn put_gap(
    list: &mut Vec<Constraint>,
    from: usize,
    to: usize,
    gap: Option<u32>,
) -> Result<(), AllocError>
    ensures { OnOk result (list.new.items ≡ list.old.items ++ gap_rows from to gap) }
{
    match gap {
        Some(gap) => put(list, from, to, gap),
        None => Ok(()),
    }
}

// The gap from an operation to a later one, where both access one object and their order matters.
fn order_gap(earlier: Kind, later: Kind) -> Option<u32>
    ensures { result ≡ order_gap earlier later }
{
    match (earlier, later) {
        (
            Kind::Global {
                object: x,
                writes: v,
            },
            Kind::Global {
                object: y,
                writes: _,
            },
        ) if x == y => Some(gap_after(v)),
        (
            Kind::Array {
                object: x,
                writes: v,
            },
            Kind::Array {
                object: y,
                writes: w,
            },
        ) if x == y && (v || w) => Some(1),
        _ => None,
    }
}

/// From an access of a global, which writes it or not, to a later one.
pub fn gap_after(writes: bool) -> u32
    ensures { result ≡ gap_after writes }
{
    if writes { 1 } else { 2 }
}
