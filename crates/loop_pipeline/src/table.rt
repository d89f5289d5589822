// The constraints of a pipelined loop.

ghost use Rattle.std.specs.Prelude.{◌≡◌, ◌+◌, ◌*◌, ◌^◌, ◌<◌, ◌≤◌, [], ◌∷◌, ◌++◌, length, IfOk, OnOk, pos, ◌-ℤ◌};
ghost use Rattle.std.specs.List.{All};
ghost use Rattle.schedule_sdc.specs.Solution.{IsWithin, FitsIfSolvable};
ghost use Rattle.op_graph.specs.Graph.{UseEarlier};
ghost use Rattle.loop_pipeline.specs.Table.{AreCarried, AreLoopRows, HasItsSolutions};
ghost use Rattle.loop_pipeline.specs.Listed.{link, rows_of, begin_rows, tested_rows, carried_rows};

use crate::shared::put_shared;
use op_graph::node::Node;
use op_graph::reduced_constraints;
use schedule_sdc::constraint::Constraint;
use std::alloc::{AllocError, Global};

/// An operation that uses what another one gave a variable some iterations before, handed on by variables alone.
#[derive(Clone, Copy)]
pub struct Carried {
    /// The operation that gave it.
    pub from: usize,
    /// The operation that uses it.
    pub to: usize,
    /// How many iterations later, at least 1.
    pub turns: u32,
}

/// Constraints with the same solutions as the table of the loop at this interval, in states. Places 0 to n - 1 are the
/// operations of condition, body and step, those of the condition up to the comparison; place n is the iteration's
/// end, and place n + 1 its start. For n operations they are at most 16 * n + 1, and making them takes time in proportion
/// to n * log n. The only error is want of memory.
pub fn loop_constraints(
    alloc: Global,
    nodes: &[Node],
    comparison: usize,
    carried: &[Carried],
    interval: u32,
) -> Result<Vec<Constraint>, AllocError>
    requires earlier { UseEarlier nodes.now }
    requires size { length nodes.now < 2 ^ 32 }
    requires comparison { comparison < length nodes.now }
    requires carried { AreCarried (length nodes.now) carried.now }
    requires interval { (1 ≤ interval) × (interval ≤ 64) }
    ensures rows { IfOk result (λ list. AreLoopRows nodes.now comparison carried.now interval list.items) }
    ensures same { IfOk result (λ list. HasItsSolutions nodes.now comparison carried.now interval list.items) }
    ensures places { IfOk result (λ list. All (IsWithin (length nodes.now + 2)) list.items) }
    ensures fits { IfOk result (λ list. FitsIfSolvable (length nodes.now + 2) list.items) }
    ensures few { IfOk result (λ list. length list.items ≤ 16 * length nodes.now + 1) }
{
    let gap = 1 - i64::from(interval);
    let mut list = reduced_constraints(alloc, nodes)?;
    put_begins(&mut list, comparison + 1, nodes.len())?;
    put_tested(&mut list, comparison, nodes.len())?;
    put(&mut list, comparison, nodes.len() + 1, gap)?;
    put_carried(&mut list, nodes, carried, interval)?;
    put_shared(alloc, &mut list, nodes, gap)?;
    Ok(list)
}

// No operation of the condition, which has so many, starts before its iteration. The others wait for the comparison.
fn put_begins(list: &mut Vec<Constraint>, tested: usize, count: usize) -> Result<(), AllocError>
    requires { count < 2 ^ 32 }
    ensures { OnOk result (list.new.items ≡ list.old.items ++ begin_rows count tested) }
{
    for j in 0..tested {
        put(list, count + 1, j, 0)?;
    }
    Ok(())
}

// What isn't the condition's waits for the comparison.
fn put_tested(list: &mut Vec<Constraint>, comparison: usize, count: usize) -> Result<(), AllocError>
    ensures { OnOk result (list.new.items ≡ list.old.items ++ tested_rows comparison count) }
{
    for j in 0..count {
        if comparison < j {
            put(list, comparison, j, 1)?;
        }
    }
    Ok(())
}

fn put_carried(
    list: &mut Vec<Constraint>,
    nodes: &[Node],
    carried: &[Carried],
    interval: u32,
) -> Result<(), AllocError>
    requires size { length nodes.now < 2 ^ 32 }
    requires carried { AreCarried (length nodes.now) carried.now }
    requires interval { interval ≤ 64 }
    ensures { OnOk result (list.new.items ≡ list.old.items ++ carried_rows nodes.now interval carried.now) }
{
    for use_ in carried {
        put_one_carried(list, nodes, use_, interval)?;
    }
    Ok(())
}

fn put_one_carried(
    list: &mut Vec<Constraint>,
    nodes: &[Node],
    use_: &Carried,
    interval: u32,
) -> Result<(), AllocError>
    requires from { use_.now.from < length nodes.now }
    requires turns { use_.now.turns < 2 ^ 32 }
    requires interval { interval ≤ 64 }
    ensures { OnOk result (list.new.items ≡ list.old.items ++ rows_of nodes.now interval use_.now) }
{
    let back = u64::from(use_.turns) * u64::from(interval);
    let gap = i64::from(nodes[use_.from].kind.latency()) - back as i64;
    put(list, use_.from, use_.to, gap)
}

/// Appends one constraint.
pub(crate) fn put(
    list: &mut Vec<Constraint>,
    from: usize,
    to: usize,
    gap: i64,
) -> Result<(), AllocError>
    ensures { OnOk result (list.new.items ≡ list.old.items ++ link from to gap ∷ []) }
{
    list.push(Constraint { from, to, gap })?;
    Ok(())
}
