// What the act of a printf works on.

ghost use Rattle.std.specs.Prelude.{◌≡◌, ℕ, ◌+◌, ◌*◌, ◌++◌, length, IfOk, IfErr, OnOk};
ghost use Rattle.c_program.specs.Plain.{expression_of, expressions_of, piece_of, pieces_of};
ghost use Rattle.c_program.specs.Weight.{expression_weight, expressions_weight};
ghost use Rattle.code_following.specs.Following as following;
ghost use Rattle.code_blocks.specs.Printing as printing;
ghost use Rattle.code_blocks.specs.Room.{IsFull};
ghost use Rattle.code_blocks.specs.Typing as typing;

use crate::expressions::lower_expression;
use crate::fault::{LoweringFault, number_of};
use crate::homes::Home;
use crate::open_block::OpenBlock;
use crate::operands::converted;
use block_ir::code::ActOperand;
use c_program::tree::{Expression, Piece};
use hls_ints::CType;
use sqlite_items::Items;
use std::alloc::{AllocError, Global};

/// The type of a piece that is a conversion.
fn push_conversion(types: &mut Items<CType>, piece: &Piece) -> Result<(), AllocError>
    ensures { OnOk result (types.new ≡ types.old ++ following.conversion_of (piece_of piece.now)) }
{
    if let Piece::Conversion(ty) = piece {
        types.push(*ty)?;
    }
    Ok(())
}

/// The types of a format's conversions.
pub fn conversions_of(alloc: Global, format: &[Piece]) -> Result<Items<CType>, AllocError>
    ensures { IfOk result (λ types. types ≡ following.conversions_of (pieces_of format.now)) }
{
    let mut types = Items::new(alloc);
    for piece in format {
        push_conversion(&mut types, piece)?;
    }
    Ok(types)
}

/// A value, converted to the type, is put into a variable of 64 bits: that of an argument, to its conversion's type, or of a
/// switch's operand.
#[tactic(auto, using(crate::proofs::Puts::puts_value, crate::proofs::TypedAssignments::value_works))]
pub fn lower_value(
    alloc: Global,
    homes: &[Home],
    block: &mut OpenBlock,
    variable: u32,
    ty: CType,
    argument: &Expression,
) -> Result<(), LoweringFault>
    ensures puts { IfOk result (λ _. printing.PutsValue homes.now variable ty (expression_of argument.now) block.old block.new) }
    ensures typed { IfOk result (λ _. typing.WorksOnValue homes.now variable (expression_of argument.now) block.old block.new) }
    ensures full { IfErr result (IsFull (length block.old.operations + (3 * expression_weight (expression_of argument.now) + 1))) }
{
    let value = lower_expression(alloc, homes, block, argument)?;
    let value = converted(alloc, &value, ty)?;
    let word = converted(alloc, &value, CType::LONG)?;
    block.set(variable, word)?;
    Ok(())
}

/// The values of a printf are put into the variables from that number on, each converted to its conversion's type.
#[tactic(auto, using(crate::proofs::TypedAssignments::values_done))]
pub fn lower_values(
    alloc: Global,
    homes: &[Home],
    block: &mut OpenBlock,
    first: u32,
    types: &[CType],
    arguments: &[Expression],
) -> Result<(), LoweringFault>
    ensures puts { IfOk result (λ _. printing.PutsValues homes.now first types.now (expressions_of arguments.now) block.old block.new) }
    ensures typed { IfOk result (λ _. typing.WorksOnValues homes.now first (expressions_of arguments.now) block.old block.new) }
    ensures full { IfErr result (IsFull
        (length block.old.operations + (3 * expressions_weight (expressions_of arguments.now) + length arguments.now) + (first + length arguments.now))) }
{
    let [ty, types @ ..] = types else {
        return Ok(());
    };
    let [argument, arguments @ ..] = arguments else {
        return Ok(());
    };
    lower_value(alloc, homes, block, first, *ty, argument)?;
    let next = number_of(first as usize)?;
    lower_values(alloc, homes, block, next + 1, types, arguments)?;
    Ok(())
}

/// So many variables of 64 bits, from that number on.
#[tactic(auto, using(crate::proofs::Words::word_operands_more))]
pub fn word_operands(
    alloc: Global,
    first: u32,
    count: usize,
) -> Result<Items<ActOperand>, LoweringFault>
    ensures operands { IfOk result (λ operands. operands ≡ printing.word_operands first count) }
    ensures full { IfErr result (IsFull (first + count)) }
{
    let mut operands = Items::new(alloc);
    for position in 0..count {
        let number = (first as usize).checked_add(position);
        let variable = number_of(number.ok_or(LoweringFault::TooLarge)?)?;
        operands.push(ActOperand::Variable(variable, CType::LONG))?;
    }
    Ok(operands)
}
