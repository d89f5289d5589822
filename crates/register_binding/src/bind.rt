// The registers of a block.
ghost use Rattle.std.specs.Prelude.{◌≡◌, ◌+◌, length, IfOk};
ghost use Rattle.op_graph.specs.Graph.{UseEarlier, Fits};
ghost use Rattle.register_binding.specs.Registers.{AreRegisters, RegistersBelow, AreCrowded};
ghost use Rattle.register_binding.specs.Used.{is_used_at_end};

use crate::lives::{lives_of, rows_of};
use crate::used::used_at_end;
use block_ir::block::Block;
use interval_pack::pack_some;
use op_graph::node::Node;
use std::alloc::{AllocError, Global};

/// The register of each value that has one, how many registers there are, and the first state that needs so many.
#[derive(Drop)]
pub struct Registers {
    pub register: Vec<Option<usize>>,
    pub count: usize,
    pub crowded: u64,
}

/// By the state in which it begins to live and then by operation, each value has the least register that no value has
/// which lives in one of its states. The nodes are the block's operations, and the starts are theirs and the end's.
/// The only error is want of memory.
pub fn bind_registers(
    alloc: Global,
    block: &Block,
    nodes: &[Node],
    starts: &[u64],
) -> Result<Registers, AllocError>
    requires nodes { length nodes.now ≡ length block.now.operations }
    requires earlier { UseEarlier nodes.now }
    requires starts { length starts.now ≡ length nodes.now + 1 }
    requires fits { Fits nodes.now starts.now }
    ensures registers { IfOk result (λ r. AreRegisters nodes.now starts.now (is_used_at_end block.now) r.register.items) }
    ensures below { IfOk result (λ r. RegistersBelow r.register.items r.count) }
    ensures crowd { IfOk result (λ r. AreCrowded nodes.now starts.now (is_used_at_end block.now) r.count r.crowded) }
{
    let used = used_at_end(alloc, block)?;
    let lives = lives_of(alloc, nodes, &used, starts)?;
    let packing = pack_some(alloc, &lives)?;
    let register = rows_of(alloc, &lives, &packing.row)?;
    Ok(Registers {
        register,
        count: packing.rows,
        crowded: packing.crowded,
    })
}
