// Operands of conditions, and the truth of those of && and || as a value.

ghost use Rattle.std.specs.Prelude.{◌≡◌, ◌+◌, ◌*◌, ◌^◌, ◌<◌, true, length, IfOk, IfErr};
ghost use Rattle.hls_ints.specs.Types.{int_type};
ghost use Rattle.c_program.specs.Plain.{expression_of};
ghost use Rattle.c_program.specs.Weight.{expression_weight};
ghost use Rattle.code_blocks.specs.Evaluating as evaluating;
ghost use Rattle.code_blocks.specs.Needs as operands;
ghost use Rattle.code_blocks.specs.Room.{IsFull};
ghost use Rattle.code_blocks.specs.Truths as truths;

use crate::expressions::{first_index, lower_expression};
use crate::fault::LoweringFault;
use crate::homes::Home;
use crate::open_block::OpenBlock;
use crate::operands::{copy_of, plain};
use crate::places::{store, target_at};
use block_ir::block::Operation;
use block_ir::operand::{Operand, Source};
use c_program::tree::{BinaryOperator, Expression, Storage, UnaryOperator};
use hls_ints::CType;
use std::alloc::Global;

/// Where the truth of an operand of `&&` or `||` as a value is kept: the local, and whether a `!` turns it.
#[derive(Clone, Copy)]
pub struct Note {
    pub slot: u32,
    pub turned: bool,
}

/// The same, where one more `!` stands before the operand.
pub fn opposite_note(note: Option<Note>) -> Option<Note>
    ensures { result ≡ truths.opposite_note note }
{
    match note {
        None => None,
        Some(note) => Some(Note {
            slot: note.slot,
            turned: !note.turned,
        }),
    }
}

/// Whether a value is 0: 1, shifted right by 0, is 1, and by any other value 0, of whatever type that is.
fn put_zero_test(
    alloc: Global,
    block: &mut OpenBlock,
    value: &Operand,
) -> Result<Operand, LoweringFault>
    ensures block { IfOk result (λ _. block.new ≡ evaluating.with_more block.old (truths.truth_operations true (length block.old.operations) value.now)) }
    ensures value { IfOk result (λ a. a ≡ operands.plain (Source.Value (length block.old.operations) int_type)) }
    ensures few { IfOk result (λ _. length block.new.operations < 2 ^ 32) }
    ensures full { IfErr result (IsFull (length block.old.operations + 1)) }
{
    let operation = Operation::Binary {
        operator: BinaryOperator::ShiftRight,
        ty: CType::INT,
        left: plain(alloc, Source::Constant(CType::INT, 1)),
        right: copy_of(alloc, value)?,
    };
    block.put(alloc, operation, CType::INT)
}

/// Whether a value is 0, where it is turned, and else whether it is another.
fn put_truth(
    alloc: Global,
    block: &mut OpenBlock,
    turned: bool,
    value: &Operand,
) -> Result<Operand, LoweringFault>
    ensures block { IfOk result (λ _. block.new ≡ evaluating.with_more block.old (truths.truth_operations turned (length block.old.operations) value.now)) }
    ensures value { IfOk result (λ a. a ≡ truths.truth_operand turned (length block.old.operations)) }
    ensures few { IfOk result (λ _. length block.new.operations < 2 ^ 32) }
    ensures full { IfErr result (IsFull (length block.old.operations + 2)) }
{
    let zero = put_zero_test(alloc, block, value)?;
    if turned {
        return Ok(zero);
    }
    let operation = Operation::Unary {
        operator: UnaryOperator::Not,
        ty: CType::INT,
        operand: zero,
    };
    block.put(alloc, operation, CType::INT)
}

/// A local keeps the truth of a value, where it is that of an operand of `&&` or `||` as a value (C99 6.5.13, 6.5.14).
fn keep_truth(
    alloc: Global,
    homes: &[Home],
    block: &mut OpenBlock,
    note: Option<Note>,
    value: &Operand,
) -> Result<(), LoweringFault>
    ensures keeps { IfOk result (λ _. truths.KeepsTruth homes.now note value.now block.old block.new) }
    ensures full { IfErr result (IsFull (length block.old.operations + 3)) }
{
    let Some(note) = note else {
        return Ok(());
    };
    let truth = put_truth(alloc, block, note.turned, value)?;
    let index = first_index(alloc);
    let target = target_at(homes, Storage::Automatic, note.slot, 1, CType::LONG, index);
    store(alloc, block, target, &truth)
}

/// The operations of an operand of a condition, whose truth is kept, if it is. The answer is its value.
pub fn lower_operand(
    alloc: Global,
    homes: &[Home],
    block: &mut OpenBlock,
    note: Option<Note>,
    operand: &Expression,
) -> Result<Operand, LoweringFault>
    ensures looks { IfOk result (λ a. truths.LooksAt homes.now note (expression_of operand.now) block.old block.new a) }
    ensures full { IfErr result (IsFull (length block.old.operations + (3 * expression_weight (expression_of operand.now) + 4))) }
{
    let value = lower_expression(alloc, homes, block, operand)?;
    keep_truth(alloc, homes, block, note, &value)?;
    Ok(value)
}
