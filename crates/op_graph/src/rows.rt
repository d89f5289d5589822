// Rows of the table, put behind a list.
ghost use Rattle.std.specs.Prelude.{◌≡◌, ℕ, ◌<◌, [], ◌∷◌, ◌++◌, length, Some, OnOk};
ghost use Rattle.op_graph.specs.Graph.{UseEarlier};
ghost use Rattle.op_graph.specs.Listed.{row, far_rows, use_rows, operand_rows, rows_of_uses, all_uses, end_rows};

use crate::node::Node;
use schedule_sdc::constraint::Constraint;
use std::alloc::AllocError;

/// The rows for the operands of all operations.
pub fn put_uses(list: &mut Vec<Constraint>, nodes: &[Node]) -> Result<(), AllocError>
    requires { UseEarlier nodes.now }
    ensures { OnOk result (list.new.items ≡ list.old.items ++ all_uses nodes.now (length nodes.now)) }
{
    for j in 0..nodes.len() {
        put_operands(list, nodes, j)?;
    }
    Ok(())
}

fn put_operands(list: &mut Vec<Constraint>, nodes: &[Node], j: usize) -> Result<(), AllocError>
    requires earlier { UseEarlier nodes.now }
    requires place { j < length nodes.now }
    ensures { OnOk result (list.new.items ≡ list.old.items ++ rows_of_uses nodes.now j) }
{
    put_operand(list, nodes, j, nodes[j].left)?;
    put_operand(list, nodes, j, nodes[j].right)
}

fn put_operand(
    list: &mut Vec<Constraint>,
    nodes: &[Node],
    j: usize,
    operand: Option<usize>,
) -> Result<(), AllocError>
    requires earlier { UseEarlier nodes.now }
    requires place { j < length nodes.now }
    requires operand { (i : ℕ) → operand ≡ Some i → i < j }
    ensures { OnOk result (list.new.items ≡ list.old.items ++ operand_rows nodes.now j operand) }
{
    match operand {
        Some(i) => put_use(list, nodes, j, i),
        None => Ok(()),
    }
}

// Operation j uses the value of operation i.
fn put_use(list: &mut Vec<Constraint>, nodes: &[Node], j: usize, i: usize) -> Result<(), AllocError>
    requires earlier { UseEarlier nodes.now }
    requires place { j < length nodes.now }
    requires operand { i < j }
    ensures { OnOk result (list.new.items ≡ list.old.items ++ use_rows nodes.now j i) }
{
    if !nodes[i].kind.is_simple() {
        return put(list, i, j, nodes[i].kind.latency());
    }
    if !nodes[j].kind.is_simple() {
        return put(list, i, j, 1);
    }
    put(list, i, j, 0)?;
    put_far(list, nodes, j, nodes[i].left)?;
    put_far(list, nodes, j, nodes[i].right)
}

// A value that is handed on within a state is not handed on a second time in it.
fn put_far(
    list: &mut Vec<Constraint>,
    nodes: &[Node],
    j: usize,
    operand: Option<usize>,
) -> Result<(), AllocError>
    requires { (h : ℕ) → operand ≡ Some h → h < length nodes.now }
    ensures { OnOk result (list.new.items ≡ list.old.items ++ far_rows nodes.now j operand) }
{
    match operand {
        Some(h) => {
            if nodes[h].kind.is_simple() {
                put(list, h, j, 1)
            } else {
                Ok(())
            }
        }
        None => Ok(()),
    }
}

/// From each operation to the end.
pub fn put_ends(list: &mut Vec<Constraint>, nodes: &[Node]) -> Result<(), AllocError>
    ensures { OnOk result (list.new.items ≡ list.old.items ++ end_rows nodes.now (length nodes.now)) }
{
    for i in 0..nodes.len() {
        put(list, i, nodes.len(), nodes[i].kind.latency())?;
    }
    Ok(())
}

/// A constraint behind the list.
pub fn put(list: &mut Vec<Constraint>, from: usize, to: usize, gap: u32) -> Result<(), AllocError>
    ensures { OnOk result (list.new.items ≡ list.old.items ++ row from to gap ∷ []) }
{
    list.push(Constraint {
        from,
        to,
        gap: i64::from(gap),
    })?;
    Ok(())
}
