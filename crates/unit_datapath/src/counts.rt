// How many units there are for an operator.

ghost use Rattle.std.specs.Prelude.{◌≡◌, ◌≤◌, ◌⊎◌, ◌&&◌, not, length, slice_get};
ghost use Rattle.block_datapath.specs.Units.{same_operator, same_type, unit_type, has_constant};
ghost use Rattle.unit_datapath.specs.Counts.{IsCountOf, OperationHas, BlockHas, StageHas, CodeHas};

use crate::kinds::is_type;
use block_datapath::operations::unit_of;
use block_datapath::units::{has_constant, same_operator};
use block_ir::block::{Block, Operation};
use block_ir::code::{Stage, ThreadCode};
use block_ir::operand::Operand;
use block_ir::plan::{BlockPlan, Planned, StagePlan};
use c_program::tree::BinaryOperator;
use hls_ints::CType;

/// One more than the greatest number of a unit that an operation shares which makes this operator in the type of its
/// units, or 0 if there is none.
pub fn unit_count(
    code: &ThreadCode,
    planned: &Planned,
    operator: BinaryOperator,
    ty: CType,
) -> usize
    ensures { IsCountOf (CodeHas operator ty code.now planned.now (length code.now.stages)) result }
{
    let mut count = 0;
    for (number, stage) in code.stages.as_slice().iter().enumerate() {
        let own = stage_count(planned, operator, ty, number, stage);
        count = greater(count, own);
    }
    count
}

/// The greater of two numbers.
pub fn greater(left: usize, right: usize) -> usize
    ensures left { left ≤ result }
    ensures right { right ≤ result }
    ensures one { (result ≡ left) ⊎ (result ≡ right) }
{
    if left < right { right } else { left }
}

fn stage_count(
    planned: &Planned,
    operator: BinaryOperator,
    ty: CType,
    number: usize,
    stage: &Stage,
) -> usize
    ensures { IsCountOf (StageHas operator ty stage.now (slice_get planned.now.stages number)) result }
{
    match stage {
        Stage::Run(block) => match planned.stages.get(number) {
            Some(plan) => match plan {
                StagePlan::Run(plan) => block_count(operator, ty, block, plan),
                StagePlan::Act => 0,
            },
            None => 0,
        },
        Stage::Act { .. } => 0,
    }
}

fn block_count(operator: BinaryOperator, ty: CType, block: &Block, plan: &BlockPlan) -> usize
    ensures { IsCountOf (BlockHas operator ty block.now plan.now (length block.now.operations)) result }
{
    let mut count = 0;
    for (number, operation) in block.operations.as_slice().iter().enumerate() {
        let own = operation_count(operator, ty, plan, number, operation);
        count = greater(count, own);
    }
    count
}

fn operation_count(
    operator: BinaryOperator,
    ty: CType,
    plan: &BlockPlan,
    number: usize,
    operation: &Operation,
) -> usize
    ensures { IsCountOf (OperationHas operator ty plan.now number operation.now) result }
{
    match operation {
        Operation::Binary {
            operator: own,
            ty: own_type,
            left,
            right,
        } => {
            if is_made(operator, ty, *own, *own_type, left, right) {
                unit_of(plan, number) as usize + 1
            } else {
                0
            }
        }
        _ => 0,
    }
}

/// Whether units of an operator and a type make what another operator gives in a type on two operands.
fn is_made(
    operator: BinaryOperator,
    unit: CType,
    own: BinaryOperator,
    ty: CType,
    left: &Operand,
    right: &Operand,
) -> bool
    ensures { result ≡ (same_operator operator own && same_type unit (unit_type own ty) && not (has_constant left.now right.now)) }
{
    same_operator(operator, own) && is_unit_type(unit, own, ty) && !has_constant(left, right)
}

fn is_unit_type(unit: CType, own: BinaryOperator, ty: CType) -> bool
    ensures { result ≡ same_type unit (unit_type own ty) }
{
    match own {
        BinaryOperator::Multiply => is_type(unit, ty.bits(), false),
        _ => is_type(unit, ty.bits(), ty.is_signed()),
    }
}
