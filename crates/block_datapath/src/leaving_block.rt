// A block at a stage: its values, and what its last state leaves.

ghost use Rattle.std.specs.Prelude.{◌≡◌, ◌-◌, max, length, IfOk};
ghost use Rattle.block_datapath.specs.Wired.{IsBlockAdded, IsKeptBlockAdded};
ghost use Rattle.block_datapath.specs.Leave.{FinishesBlock, LeavesBlock};

use crate::ending::{final_words, set_finals, target};
use crate::keeping::keep_all;
use crate::operands::Given;
use crate::operations::all_values;
use crate::registers::Registers;
use crate::states::{Moment, at_stage, in_state};
use block_ir::block::Block;
use block_ir::code::ThreadCode;
use block_ir::plan::BlockPlan;
use hls_ints::CType;
use operator_wires::wires::Wires;
use sqlite_items::Items;
use std::alloc::AllocError;

/// The values of a block's operations, its last state, the bit that tells whether the slot is there, and the number of
/// the stage that follows.
#[derive(Drop)]
pub struct Left {
    pub values: Items<Given>,
    pub end: Moment,
    pub last: usize,
    pub target: usize,
}

/// The last state of a plan.
pub fn end_of(at: usize, plan: &BlockPlan) -> Moment
    ensures at { result.at ≡ at }
    ensures state { result.state ≡ max 1 plan.now.states - 1 }
    ensures states { result.states ≡ max 1 plan.now.states }
{
    let states = plan.states.max(1);
    Moment {
        at,
        state: states.saturating_sub(1),
        states,
    }
}

/// Puts a block's wires behind the others, and sets the variables in its last state.
fn finish_block(
    wires: &mut Wires,
    registers: &Registers,
    variables: &mut Items<usize>,
    code: &ThreadCode,
    globals: &[CType],
    stage: u64,
    block: &Block,
    plan: &BlockPlan,
) -> Result<Left, AllocError>
    ensures shows { IfOk result (λ left. FinishesBlock globals.now code.now registers.now stage block.now plan.now variables.old variables.new left wires.old.signals wires.new.signals) }
    ensures wired { IfOk result (IsBlockAdded wires.old.signals wires.new.signals code.now registers.now stage plan.now variables.old variables.new) }
{
    let at = at_stage(wires, registers, stage)?;
    let end = end_of(at, plan);
    let values = all_values(wires, registers, code, globals, block, plan)?;
    let given = values.as_slice();
    let finals = block.finals.as_slice();
    let finishes = final_words(wires, registers, code, given, finals, end.state)?;
    let target = target(wires, registers, code, given, &block.next, end.state)?;
    let last = in_state(wires, registers, end)?;
    let finishing = finishes.as_slice();
    set_finals(wires, variables, finishing, last)?;
    Ok(Left {
        values,
        end,
        last,
        target,
    })
}

/// Puts a block's wires behind the others, sets the variables in its last state, and lets registers keep the values that
/// are used later.
pub fn leave_block(
    wires: &mut Wires,
    registers: &Registers,
    variables: &mut Items<usize>,
    kept: &mut Items<usize>,
    code: &ThreadCode,
    globals: &[CType],
    stage: u64,
    block: &Block,
    plan: &BlockPlan,
) -> Result<Left, AllocError>
    ensures shows { IfOk result
        (λ left. LeavesBlock globals.now code.now registers.now stage block.now plan.now variables.old variables.new left kept.old kept.new wires.old.signals wires.new.signals) }
    ensures wired { IfOk result (IsKeptBlockAdded wires.old.signals wires.new.signals code.now registers.now stage plan.now variables.old variables.new kept.old kept.new) }
{
    let left = finish_block(
        wires, registers, variables, code, globals, stage, block, plan,
    )?;
    let given = left.values.as_slice();
    keep_all(wires, registers, kept, given, left.end)?;
    Ok(left)
}
