// Units and registers of a small block at its least starts.
ghost use Rattle.std.specs.Prelude.{◌^◌, ◌<◌, length};

use crate::small::{PRODUCTS, block};
use block_ir::block::Block;
use fsm_plan::least_starts;
use op_graph::node::{Kind, nodes};
use register_binding::{Registers, bind_registers};
use std::alloc::{AllocError, Global};
use std::test::Fail;
use unit_binding::{UnitCount, Units, bind_units};

/// Of three products two work at once, on two multipliers; the third takes the first of them.
fn are_units(units: &Units) -> bool {
    let multipliers = UnitCount {
        kind: Kind::Multiply { width: 32 },
        count: 2,
    };
    units.unit.as_slice() == [0, 1, 0, 0].as_slice()
        && matches!(units.counts.as_slice(), [only] if *only == multipliers)
}

/// The first two products live in state 2 alone, in which they are summed, and the sum lives in the two states in which
/// the third product works.
fn are_registers(registers: &Registers) -> bool {
    registers.register.as_slice() == [Some(0), Some(1), Some(0), None].as_slice()
        && registers.count == 2
        && registers.crowded == 2
}

/// Whether the three products have those units and registers at their least starts.
fn is_bound(alloc: Global, block: &Block) -> Result<bool, AllocError>
    requires { length block.now.operations < 2 ^ 32 }
{
    let graph = nodes(alloc, block.operations.as_slice())?;
    let starts = least_starts(alloc, graph.as_slice())?;
    let units = bind_units(alloc, graph.as_slice(), starts.as_slice())?;
    let registers = bind_registers(alloc, block, graph.as_slice(), starts.as_slice())?;
    let are_least = starts.as_slice() == [0, 0, 2, 3, 5].as_slice();
    Ok(are_least && are_units(&units) && are_registers(&registers))
}

#[test]
fn three_products(rt: HostRuntime) -> Result<(), Fail> {
    let block = block(rt.alloc(), &PRODUCTS, Some(3))?;
    assert!(rt; block.operations.len() == 4);
    let is_bound = is_bound(rt.alloc(), &block)?;
    assert!(rt; is_bound);
    Ok(())
}
