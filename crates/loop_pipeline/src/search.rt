// The search for the least interval.

ghost use Rattle.std.specs.Prelude.{◌≡◌, ◌^◌, ◌<◌, ◌≤◌, length, IfOk};
ghost use Rattle.op_graph.specs.Graph.{UseEarlier};
ghost use Rattle.loop_pipeline.specs.Table.{AreCarried};
ghost use Rattle.loop_pipeline.specs.Pipeline.{IsSolvedLoop, IsSplit, IsPipeline, IsSoon};

use crate::table::{Carried, loop_constraints};
use op_graph::node::Node;
use schedule_sdc::{Solved, solve};
use std::alloc::{AllocError, Global};

/// The schedule of a loop, or why there is none.
#[derive(Drop)]
pub enum Pipelined {
    /// Each iteration begins so many states, the interval, after the one before. In states of its iteration, the start
    /// of each operation, and the depth: the first state in which none works any more.
    Pipelined {
        interval: u32,
        starts: Vec<u64>,
        depth: u64,
    },
    /// The places of a closed walk, its last place the first again, whose gaps have a positive sum at the greatest
    /// interval.
    Unfit(Vec<usize>),
}

// No iteration begins later behind the one before.
const GREATEST: u32 = 64;

/// The least starts at an interval, or why there are none.
fn solved(
    alloc: Global,
    nodes: &[Node],
    comparison: usize,
    carried: &[Carried],
    interval: u32,
) -> Result<Solved, AllocError>
    requires earlier { UseEarlier nodes.now }
    requires size { length nodes.now < 2 ^ 32 }
    requires comparison { comparison < length nodes.now }
    requires carried { AreCarried (length nodes.now) carried.now }
    requires interval { (1 ≤ interval) × (interval ≤ 64) }
    ensures { IfOk result (IsSolvedLoop nodes.now comparison carried.now interval) }
{
    let list = loop_constraints(alloc, nodes, comparison, carried, interval)?;
    solve(alloc, nodes.len() + 2, &list)
}

/// The least interval from `least` to 64 at which the table of a loop has a solution, and its least solution; or, where
/// it has none, a closed walk that shows it for 64. A solution at an interval is one at each greater interval, so seven
/// intervals are tried at most. The only error is want of memory.
pub fn pipeline(
    alloc: Global,
    nodes: &[Node],
    comparison: usize,
    carried: &[Carried],
    least: u32,
) -> Result<Pipelined, AllocError>
    requires earlier { UseEarlier nodes.now }
    requires size { length nodes.now < 2 ^ 32 }
    requires comparison { comparison < length nodes.now }
    requires carried { AreCarried (length nodes.now) carried.now }
    requires least { (1 ≤ least) × (least ≤ 64) }
    ensures pipeline { IfOk result (IsPipeline nodes.now comparison carried.now least) }
    ensures soon { IfOk result (IsSoon nodes.now) }
{
    let mut best = match solved(alloc, nodes, comparison, carried, GREATEST)? {
        Solved::Starts(starts) => starts,
        Solved::Cyclic(walk) => return Ok(Pipelined::Unfit(walk)),
    };
    let mut interval = GREATEST;
    let mut low = least;
    while low < interval {
        let middle = (low + interval) / 2;
        match solved(alloc, nodes, comparison, carried, middle)? {
            Solved::Starts(starts) => {
                best = starts;
                interval = middle;
            }
            Solved::Cyclic(_) => low = middle + 1,
        }
    }
    Ok(split(interval, best))
}

// The starts of the operations and the iteration's end apart; its start, the last one, is 0.
fn split(interval: u32, places: Vec<u64>) -> Pipelined
    requires { 2 ≤ length places.items }
    ensures { IsSplit interval places.items result }
{
    let mut starts = places;
    let _begin = starts.pop();
    let depth = starts.pop().unwrap_or(0);
    Pipelined::Pipelined {
        interval,
        starts,
        depth,
    }
}
