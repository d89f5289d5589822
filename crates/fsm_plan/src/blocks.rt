// Plans of blocks and of the code of a thread.
ghost use Rattle.std.specs.Prelude.{◌≡◌, ◌^◌, ◌<◌, ◌≤◌, length, IfOk};
ghost use Rattle.op_graph.specs.Graph.{nodes_of, UseEarlier};
ghost use Rattle.fsm_plan.specs.Planned.{AreLeastStarts, IsPlannedRun};
ghost use Rattle.fsm_plan.specs.Steps.{AreSoon, AreBindings, AreSmall, AreSmallNames, IsSmallName};

use crate::starts::least_starts;
use block_ir::block::Block;
use block_ir::plan::BlockPlan;
use op_graph::node::{Node, nodes};
use register_binding::bind_registers;
use sqlite_items::Items;
use std::alloc::{AllocError, Global};
use unit_binding::bind_units;

/// The plan of a block, and the greatest number of its values that live in one state.
#[derive(Drop)]
pub struct Bound {
    pub plan: BlockPlan,
    pub registers: u32,
}

// The units, the registers, and the greatest number of values that live in one state.
#[derive(Drop)]
struct Bindings {
    units: Items<u32>,
    registers: Items<Option<u32>>,
    count: u32,
}

// So many operations have names.
const MOST: usize = 0xffff_ffff;

/// The plan of a block: least starts, units and registers by the left edge. The only error is want of memory.
///
/// A block of 2 ^ 32 operations or more, whose values have no names, gets some plan.
pub fn plan_block(alloc: Global, block: &Block) -> Result<Bound, AllocError>
    ensures { IfOk result (λ r. length block.now.operations < 2 ^ 32 → IsPlannedRun block.now r.plan r.registers) }
{
    let graph = nodes(alloc, block.operations.as_slice())?;
    let count = graph.len();
    if count > MOST {
        return Ok(unplanned(alloc));
    }
    let mut starts = least_starts(alloc, graph.as_slice())?;
    let bindings = bind(alloc, block, graph.as_slice(), starts.as_slice())?;
    let end = starts.pop().unwrap_or(0);
    let Bindings {
        units,
        registers,
        count,
    } = bindings;
    Ok(Bound {
        plan: BlockPlan {
            starts: Items::from_vec(starts),
            states: end.max(1),
            units,
            registers,
        },
        registers: count,
    })
}

// The units and registers of a block at its least starts.
fn bind(
    alloc: Global,
    block: &Block,
    graph: &[Node],
    starts: &[u64],
) -> Result<Bindings, AllocError>
    requires graph { graph.now ≡ nodes_of block.now.operations }
    requires earlier { UseEarlier graph.now }
    requires few { length block.now.operations < 2 ^ 32 }
    requires least { AreLeastStarts graph.now starts.now }
    requires soon { AreSoon graph.now starts.now }
    ensures { IfOk result (λ b. AreBindings block.now starts.now b.units b.registers b.count) }
{
    let units = bind_units(alloc, graph, starts)?;
    let registers = bind_registers(alloc, block, graph, starts)?;
    let unit_numbers = numbers(alloc, units.unit.as_slice())?;
    let register_names = names(alloc, registers.register.as_slice())?;
    Ok(Bindings {
        units: unit_numbers,
        registers: register_names,
        count: number(registers.count),
    })
}

fn unplanned(alloc: Global) -> Bound {
    Bound {
        plan: BlockPlan {
            starts: Items::new(alloc),
            states: 1,
            units: Items::new(alloc),
            registers: Items::new(alloc),
        },
        registers: 0,
    }
}

// The same numbers in 32 bits.
fn numbers(alloc: Global, wide: &[usize]) -> Result<Items<u32>, AllocError>
    ensures { IfOk result (λ narrow. AreSmall wide.now → narrow ≡ wide.now) }
{
    let mut narrow = Items::new(alloc);
    for i in 0..wide.len() {
        narrow.push(number(wide[i]))?;
    }
    Ok(narrow)
}

fn names(alloc: Global, wide: &[Option<usize>]) -> Result<Items<Option<u32>>, AllocError>
    ensures { IfOk result (λ narrow. AreSmallNames wide.now → narrow ≡ wide.now) }
{
    let mut narrow = Items::new(alloc);
    for i in 0..wide.len() {
        narrow.push(name(wide[i]))?;
    }
    Ok(narrow)
}

fn name(wide: Option<usize>) -> Option<u32>
    ensures { IsSmallName wide → result ≡ wide }
{
    match wide {
        Some(wide) => Some(number(wide)),
        None => None,
    }
}

fn number(wide: usize) -> u32
    ensures { wide < 2 ^ 32 → result ≡ wide }
{
    u32::try_from(wide).unwrap_or(u32::MAX)
}
