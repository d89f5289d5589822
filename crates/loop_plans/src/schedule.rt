// The schedule of a pipelined loop of the code.

ghost use Rattle.std.specs.Prelude.{◌^◌, ◌<◌, ◌≤◌, length, IfOk};
ghost use Rattle.op_graph.specs.Graph.{nodes_of};
ghost use Rattle.loop_pipeline.specs.Pipeline.{IsSoon};
ghost use Rattle.loop_plans.specs.Fits.{FitsPipeline};
ghost use Rattle.loop_plans.specs.Scheduled.{IsScheduledLoop};

use crate::carried::carried_of;
use block_ir::block::Block;
use loop_pipeline::{Pipelined, pipeline};
use op_graph::node::nodes;
use std::alloc::{AllocError, Global};

/// The least interval from `least` to 64, in states, at which the iterations of a loop that fits can begin one after
/// another, with the least starts of its operations; or why there is none. `turn` is condition, body and step as one
/// block, whose first operations, up to the comparison, are the condition's. The only error is want of memory.
pub fn schedule_loop(
    alloc: Global,
    turn: &Block,
    comparison: usize,
    least: u32,
) -> Result<Pipelined, AllocError>
    requires fits { FitsPipeline turn.now comparison }
    requires operations { length turn.now.operations < 2 ^ 32 }
    requires finals { length turn.now.finals < 2 ^ 32 }
    requires least { (1 ≤ least) × (least ≤ 64) }
    ensures scheduled { IfOk result (IsScheduledLoop turn.now comparison least) }
    ensures soon { IfOk result (IsSoon (nodes_of turn.now.operations)) }
{
    let graph = nodes(alloc, turn.operations.as_slice())?;
    let carried = carried_of(alloc, turn.operations.as_slice(), turn.finals.as_slice())?;
    pipeline(alloc, &graph, comparison, &carried, least)
}
