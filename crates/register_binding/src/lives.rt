// The states in which values live.
ghost use Rattle.std.specs.Prelude.{◌≡◌, ◌∷◌, ℕ, ◌+◌, ◌^◌, ◌<◌, ◌≤◌, length, slice_index, slice_index_or, Some, None, nat_lt, max, IfOk, if◌then◌else◌};
ghost use Rattle.interval_pack.specs.Packing.{at};
ghost use Rattle.op_graph.specs.Graph.{UseEarlier, done, Fits};
ghost use Rattle.register_binding.specs.Registers.{is_marked, life_end, is_operand};
ghost use Rattle.register_binding.specs.Steps.{AreLives, AreEnds, IsUsedTo, AreRows};

use interval_pack::Interval;
use op_graph::node::Node;
use std::alloc::{AllocError, Global};

/// For each value the states in which it lives: from the state after its operation's last one to the last state in which a
/// user works.
pub fn lives_of(
    alloc: Global,
    nodes: &[Node],
    at_end: &[bool],
    starts: &[u64],
) -> Result<Vec<Interval>, AllocError>
    requires earlier { UseEarlier nodes.now }
    requires at_end { length at_end.now ≡ length nodes.now }
    requires starts { length starts.now ≡ length nodes.now + 1 }
    requires fits { Fits nodes.now starts.now }
    ensures { IfOk result (λ lives. AreLives nodes.now starts.now (is_marked at_end.now) lives.items) }
{
    let ends = life_ends(alloc, nodes, at_end, starts)?;
    let mut lives = Vec::with_capacity(alloc, nodes.len())?;
    for i in 0..nodes.len() {
        lives.push(Interval {
            start: done(nodes, starts, i),
            end: ends[i],
        })?;
    }
    Ok(lives)
}

// The state after the last one in which an operation works.
fn done(nodes: &[Node], starts: &[u64], i: usize) -> u64
    requires place { i < length nodes.now }
    requires starts { length starts.now ≡ length nodes.now + 1 }
    requires fits { Fits nodes.now starts.now }
    ensures { result ≡ done nodes.now starts.now i }
{
    starts[i] + u64::from(nodes[i].kind.latency())
}

// For each value the state after the last one in which a user works, 0 where none is.
fn life_ends(
    alloc: Global,
    nodes: &[Node],
    at_end: &[bool],
    starts: &[u64],
) -> Result<Vec<u64>, AllocError>
    requires earlier { UseEarlier nodes.now }
    requires at_end { length at_end.now ≡ length nodes.now }
    requires starts { length starts.now ≡ length nodes.now + 1 }
    requires fits { Fits nodes.now starts.now }
    ensures { IfOk result (λ ends. AreEnds nodes.now starts.now (is_marked at_end.now) (length nodes.now) ends.items) }
{
    let mut ends = Vec::with_capacity(alloc, nodes.len())?;
    for i in 0..nodes.len() {
        ends.push(first_end(at_end[i], starts[nodes.len()]))?;
    }
    for k in 0..nodes.len() {
        let to = done(nodes, starts, k);
        note_use(&mut ends, nodes[k].left, to);
        note_use(&mut ends, nodes[k].right, to);
    }
    Ok(ends)
}

fn first_end(at_end: bool, end: u64) -> u64
    ensures { result ≡ (if at_end then end else 0) }
{
    if at_end { end } else { 0 }
}

// The value of the operand is used up to a state.
fn note_use(ends: &mut Vec<u64>, operand: Option<usize>, to: u64)
    requires { (i : ℕ) → operand ≡ Some i → i < length ends.old.items }
    ensures { IsUsedTo operand to ends.old.items ends.new.items }
{
    if let Some(i) = operand {
        ends[i] = ends[i].max(to);
    }
}

/// The row of each interval that has a place.
pub fn rows_of(
    alloc: Global,
    lives: &[Interval],
    row: &[usize],
) -> Result<Vec<Option<usize>>, AllocError>
    requires { length row.now ≡ length lives.now }
    ensures { IfOk result (λ rows. AreRows lives.now row.now rows.items) }
{
    let mut rows = Vec::with_capacity(alloc, lives.len())?;
    for i in 0..lives.len() {
        rows.push(row_if(lives[i].start < lives[i].end, row[i]))?;
    }
    Ok(rows)
}

fn row_if(lives: bool, row: usize) -> Option<usize>
    ensures { result ≡ (if lives then Some row else None) }
{
    if lives { Some(row) } else { None }
}
