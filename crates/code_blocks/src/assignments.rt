// The operations of assignments.

ghost use Rattle.std.specs.Prelude.{◌≡◌, ◌+◌, ◌*◌, length, IfOk, IfErr};
ghost use Rattle.c_program.specs.Plain.{expression_of, place_of};
ghost use Rattle.c_program.specs.Tree as tree;
ghost use Rattle.c_program.specs.Weight.{expression_weight, place_weight};
ghost use Rattle.thread_semantics.specs.Move.{assignment, slot_place, update};
ghost use Rattle.code_blocks.specs.Assigning as assigning;
ghost use Rattle.code_blocks.specs.Room.{IsFull};
ghost use Rattle.code_blocks.specs.Typing as typing;

use crate::expressions::{first_index, lower_expression};
use crate::fault::LoweringFault;
use crate::homes::Home;
use crate::open_block::OpenBlock;
use crate::operands::converted;
use crate::places::{load, lower_place, store, target_at};
use block_ir::block::Operation;
use c_program::tree::{BinaryOperator, Expression, Place, Storage};
use hls_ints::CType;
use std::alloc::Global;

/// A step that assigns: the right side, the index, the store.
pub fn lower_assignment(
    alloc: Global,
    homes: &[Home],
    block: &mut OpenBlock,
    place: &Place,
    right: &Expression,
) -> Result<(), LoweringFault>
    ensures assigns { IfOk result (λ _. assigning.Assigns homes.now (assignment (place_of place.now) (expression_of right.now)) block.old block.new) }
    ensures typed { IfOk result (λ _. typing.WorksOnAssignment homes.now (place_of place.now) (expression_of right.now) block.old block.new) }
    ensures full { IfErr result
        (IsFull (length block.old.operations + block.old.steps + 4 * (place_weight (place_of place.now) + expression_weight (expression_of right.now) + 1))) }
{
    let value = lower_expression(alloc, homes, block, right)?;
    let target = lower_place(alloc, homes, block, place)?;
    store(alloc, block, target, &value)?;
    block.step()
}

/// A step that works on the old value: the right side, the index, the old value, the operator, the store.
pub fn lower_update(
    alloc: Global,
    homes: &[Home],
    block: &mut OpenBlock,
    place: &Place,
    operator: BinaryOperator,
    ty: CType,
    right: &Expression,
) -> Result<(), LoweringFault>
    ensures assigns { IfOk result (λ _. assigning.Assigns homes.now (update (place_of place.now) operator ty (expression_of right.now)) block.old block.new) }
    ensures typed { IfOk result (λ _. typing.WorksOnUpdate homes.now (place_of place.now) operator ty (expression_of right.now) block.old block.new) }
    ensures full { IfErr result
        (IsFull (length block.old.operations + block.old.steps + 4 * (place_weight (place_of place.now) + expression_weight (expression_of right.now) + 2))) }
{
    let right = lower_expression(alloc, homes, block, right)?;
    let target = lower_place(alloc, homes, block, place)?;
    let left = load(alloc, block, &target)?;
    let value = block.put(
        alloc,
        Operation::Binary {
            operator,
            ty,
            left,
            right,
        },
        ty,
    )?;
    store(alloc, block, target, &value)?;
    block.step()
}

/// A step that keeps the chosen operand of `?:`, converted to the type of both (C99 6.5.15): a local holds it as a long.
pub fn lower_kept(
    alloc: Global,
    homes: &[Home],
    block: &mut OpenBlock,
    slot: u32,
    ty: CType,
    operand: &Expression,
) -> Result<(), LoweringFault>
    ensures keeps { IfOk result (λ _. assigning.Assigns homes.now (assignment (slot_place slot) (tree.Expression.Cast ty (expression_of operand.now))) block.old block.new) }
    ensures typed { IfOk result (λ _. typing.WorksOnKept homes.now slot (expression_of operand.now) block.old block.new) }
    ensures full { IfErr result (IsFull (length block.old.operations + block.old.steps + (3 * expression_weight (expression_of operand.now) + 2))) }
{
    let value = lower_expression(alloc, homes, block, operand)?;
    let kept = converted(alloc, &value, ty)?;
    let index = first_index(alloc);
    let target = target_at(homes, Storage::Automatic, slot, 1, CType::LONG, index);
    store(alloc, block, target, &kept)?;
    block.step()
}
