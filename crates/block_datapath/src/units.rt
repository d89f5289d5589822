// The functional units that operations share.

ghost use Rattle.std.specs.Prelude.{◌≡◌, false};
ghost use Rattle.block_datapath.specs.Units.{same_operator, same_type, unit_type, is_for, unit_place, is_constant, has_constant, shared_place};

use crate::registers::UnitResults;
use block_ir::operand::{Operand, Source};
use c_program::tree::BinaryOperator;
use hls_ints::CType;

/// The type in which the units of an operator work: products of both signs are made in the unsigned type of their width.
pub fn unit_type(operator: BinaryOperator, ty: CType) -> CType
    ensures { result ≡ unit_type operator ty }
{
    match operator {
        BinaryOperator::Multiply => unsigned(ty),
        _ => ty,
    }
}

fn unsigned(ty: CType) -> CType
    ensures width { result.width ≡ ty.width }
    ensures sign { result.signed ≡ false }
{
    CType {
        width: ty.width,
        signed: false,
    }
}

/// Whether one of two operands is a constant. An operation on them has an operator of its own, which a synthesizer can
/// fold: behind the multiplexers of a shared unit it would not see the constant.
pub fn has_constant(left: &Operand, right: &Operand) -> bool
    ensures { result ≡ has_constant left.now right.now }
{
    is_constant(left.source) || is_constant(right.source)
}

fn is_constant(source: Source) -> bool
    ensures { result ≡ is_constant source }
{
    matches!(source, Source::Constant(..))
}

/// Where the result of the unit stands that an operation on two operands shares, if it shares one.
pub fn shared_place(
    units: &[UnitResults],
    operator: BinaryOperator,
    ty: CType,
    left: &Operand,
    right: &Operand,
    number: usize,
) -> Option<usize>
    ensures { result ≡ shared_place units.now operator ty left.now right.now number }
{
    if has_constant(left, right) {
        None
    } else {
        unit_place(units, operator, ty, number)
    }
}

/// Where the result of a unit stands, of the units of an operator at a type that of this number, if it is shared.
fn unit_place(
    units: &[UnitResults],
    operator: BinaryOperator,
    ty: CType,
    number: usize,
) -> Option<usize>
    ensures { result ≡ unit_place units.now operator ty number }
{
    for results in units {
        if serves(results, operator, ty) {
            return results.places.get(number).copied();
        }
    }
    None
}

fn serves(results: &UnitResults, operator: BinaryOperator, ty: CType) -> bool
    ensures { result ≡ is_for operator ty results.now }
{
    same_operator(results.operator, operator) && is_type(results.ty, unit_type(operator, ty))
}

fn is_type(left: CType, right: CType) -> bool
    ensures { result ≡ same_type left right }
{
    left.bits() == right.bits() && left.is_signed() == right.is_signed()
}

/// Whether the operators are the same, and one that has units.
pub fn same_operator(left: BinaryOperator, right: BinaryOperator) -> bool
    ensures { result ≡ same_operator left right }
{
    match (left, right) {
        (BinaryOperator::Multiply, BinaryOperator::Multiply) => true,
        (BinaryOperator::Divide, BinaryOperator::Divide) => true,
        (BinaryOperator::Remainder, BinaryOperator::Remainder) => true,
        _ => false,
    }
}
