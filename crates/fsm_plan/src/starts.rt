// The least starts of a block.
ghost use Rattle.std.specs.Prelude.{◌^◌, ◌<◌, length, IfOk};
ghost use Rattle.op_graph.specs.Graph.{UseEarlier};
ghost use Rattle.fsm_plan.specs.Planned.{AreLeastStarts};
ghost use Rattle.fsm_plan.specs.Steps.{AreSoon};

use op_graph::law::sequential_meets;
use op_graph::node::Node;
use op_graph::reduced_constraints;
use schedule_sdc::{Solved, solve};
use std::alloc::{AllocError, Global};

/// The least starts of the operations of a block and of its end that meet the table of its constraints.
/// The only error is want of memory.
pub fn least_starts(alloc: Global, nodes: &[Node]) -> Result<Vec<u64>, AllocError>
    requires earlier { UseEarlier nodes.now }
    requires size { length nodes.now < 2 ^ 32 }
    ensures least { IfOk result (λ starts. AreLeastStarts nodes.now starts.items) }
    ensures soon { IfOk result (λ starts. AreSoon nodes.now starts.items) }
{
    sequential_meets();
    let list = reduced_constraints(alloc, nodes)?;
    match solve(alloc, nodes.len() + 1, &list)? {
        Solved::Starts(starts) => Ok(starts),
        Solved::Cyclic(_) => unreachable!(),
    }
}
