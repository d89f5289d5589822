// The step of an operand of a condition.

ghost use Rattle.std.specs.Prelude.{◌+◌, ◌*◌, length, MatchResult};
ghost use Rattle.c_program.specs.Plain.{expression_of};
ghost use Rattle.c_program.specs.Weight.{expression_weight};
ghost use Rattle.code_control.specs.Deciding as deciding;
ghost use Rattle.code_blocks.specs.Room.{IsFull};

use c_program::tree::Expression;
use code_blocks::fault::LoweringFault;
use code_blocks::truths::{Note, lower_operand};
use code_places::lowering::Lowering;
use std::alloc::Global;

/// A step that evaluates an operand of a condition, and leads to the first label where it isn't 0. A local keeps its truth, where it
/// is one of `&&` or `||` as a value.
pub fn lower_test(
    alloc: Global,
    code: &mut Lowering,
    operand: &Expression,
    note: Option<Note>,
    nonzero: usize,
    zero: usize,
) -> Result<(), LoweringFault>
    ensures { MatchResult result (λ _. deciding.Tests (expression_of operand.now) note nonzero zero code.old code.new)
        (IsFull (length code.old.block.operations + code.old.block.steps + (3 * expression_weight (expression_of operand.now) + 4))) }
{
    let homes = code.homes.as_slice();
    let test = lower_operand(alloc, homes, &mut code.block, note, operand)?;
    code.block.step()?;
    code.branch(alloc, test, nonzero, zero)?;
    Ok(())
}
