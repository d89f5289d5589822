// The operations of an expression.

ghost use Rattle.std.specs.Prelude.{◌≡◌, ◌+◌, ◌*◌, pos, length, IfOk, IfErr};
ghost use Rattle.hls_ints.specs.Types.{int_type, unsigned_long};
ghost use Rattle.c_program.specs.Plain.{expression_of};
ghost use Rattle.c_program.specs.Weight.{expression_weight};
ghost use Rattle.code_blocks.specs.Needs as operands;
ghost use Rattle.code_blocks.specs.Evaluating as evaluating;
ghost use Rattle.code_blocks.specs.Room.{IsFull};

use crate::fault::LoweringFault;
use crate::homes::Home;
use crate::open_block::OpenBlock;
use crate::operands::{converted, plain};
use crate::places::{Target, load, target_at};
use block_ir::block::Operation;
use block_ir::operand::{Operand, Source};
use c_program::tree::{BinaryOperator, Expression, Storage, UnaryOperator};
use c_program::types::expression_type;
use hls_ints::CType;
use std::alloc::Global;

/// The index of a scalar.
pub fn first_index(alloc: Global) -> Operand
    ensures { result ≡ operands.plain (Source.Constant int_type (pos 0)) }
{
    plain(alloc, Source::Constant(CType::INT, 0))
}

/// How many elements a row has.
fn row_length(alloc: Global, length: u64) -> Operand
    ensures { result ≡ operands.plain (Source.Constant unsigned_long (pos length)) }
{
    plain(
        alloc,
        Source::Constant(CType::UNSIGNED_LONG, i128::from(length)),
    )
}

/// The operations that an expression takes are added to the block; the answer is its value.
#[tactic(auto, using(crate::proofs::Values::expression_steps))]
pub fn lower_expression(
    alloc: Global,
    homes: &[Home],
    block: &mut OpenBlock,
    expression: &Expression,
) -> Result<Operand, LoweringFault>
    ensures value { IfOk result (λ a. evaluating.Evaluates homes.now (expression_of expression.now) block.old block.new a) }
    ensures full { IfErr result (IsFull (length block.old.operations + (3 * expression_weight (expression_of expression.now) + 1))) }
{
    match expression {
        Expression::Constant(ty, number) => Ok(plain(alloc, Source::Constant(*ty, *number))),
        Expression::Variable(storage, variable, ty) => {
            let target = target_at(homes, *storage, *variable, 1, *ty, first_index(alloc));
            load(alloc, block, &target)
        }
        Expression::Element(storage, variable, length, ty, index) => {
            let index = lower_expression(alloc, homes, block, index)?;
            let target = target_at(homes, *storage, *variable, *length, *ty, index);
            load(alloc, block, &target)
        }
        Expression::Unary(operator, ty, operand) => {
            let operand = lower_expression(alloc, homes, block, operand)?;
            if *operator == UnaryOperator::Plus {
                return Ok(converted(alloc, &operand, *ty)?);
            }
            block.put(
                alloc,
                Operation::Unary {
                    operator: *operator,
                    ty: *ty,
                    operand,
                },
                expression_type(expression),
            )
        }
        Expression::Binary(operator, ty, left, right) => {
            let left = lower_expression(alloc, homes, block, left)?;
            let right = lower_expression(alloc, homes, block, right)?;
            block.put(
                alloc,
                Operation::Binary {
                    operator: *operator,
                    ty: *ty,
                    left,
                    right,
                },
                expression_type(expression),
            )
        }
        Expression::Cast(ty, operand) => {
            let operand = lower_expression(alloc, homes, block, operand)?;
            Ok(converted(alloc, &operand, *ty)?)
        }
        Expression::Row(outer, _, inner, length) => {
            let outer = lower_expression(alloc, homes, block, outer)?;
            let size = row_length(alloc, *length);
            let product = block.put(
                alloc,
                Operation::Binary {
                    operator: BinaryOperator::Multiply,
                    ty: CType::UNSIGNED_LONG,
                    left: outer,
                    right: size,
                },
                CType::UNSIGNED_LONG,
            )?;
            let inner = lower_expression(alloc, homes, block, inner)?;
            block.put(
                alloc,
                Operation::Binary {
                    operator: BinaryOperator::Add,
                    ty: CType::UNSIGNED_LONG,
                    left: product,
                    right: inner,
                },
                CType::UNSIGNED_LONG,
            )
        }
        Expression::Kept(slot, ty) => {
            let index = first_index(alloc);
            let target = target_at(homes, Storage::Automatic, *slot, 1, CType::LONG, index);
            let value = load(alloc, block, &target)?;
            Ok(converted(alloc, &value, *ty)?)
        }
    }
}
