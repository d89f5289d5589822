// Kinds of functional units.

ghost use Rattle.std.specs.Prelude.{◌≡◌, ◌&&◌, nat_eq, not};
ghost use Rattle.std.specs.Bool.{beq};
ghost use Rattle.hls_ints.specs.Types.{width_of};
ghost use Rattle.block_datapath.specs.Units.{has_constant};
ghost use Rattle.unit_datapath.specs.Kinds.{is_of, is_shared, is_work};

use block_datapath::units::has_constant;
use block_ir::block::Operation;
use block_ir::operand::Operand;
use c_program::tree::BinaryOperator;
use hls_ints::CType;

/// A kind of units: multipliers or dividers that work in a type, multipliers in an unsigned one.
#[derive(Clone, Copy)]
pub struct UnitKind {
    pub divides: bool,
    pub ty: CType,
}

/// Whether an operator that works in a type is of the kind: products of both signs are made in the unsigned type.
pub fn is_of(kind: &UnitKind, operator: BinaryOperator, ty: CType) -> bool
    ensures { result ≡ is_of kind.now operator ty }
{
    match operator {
        BinaryOperator::Multiply => !kind.divides && is_type(kind.ty, ty.bits(), false),
        BinaryOperator::Divide => kind.divides && is_type(kind.ty, ty.bits(), ty.is_signed()),
        BinaryOperator::Remainder => kind.divides && is_type(kind.ty, ty.bits(), ty.is_signed()),
        _ => false,
    }
}

pub fn is_type(ty: CType, width: u32, signed: bool) -> bool
    ensures { result ≡ (nat_eq (width_of ty) width && beq ty.signed signed) }
{
    ty.bits() == width && ty.is_signed() == signed
}

/// Whether an operation on two operands shares a unit of the kind.
pub fn is_shared(
    kind: &UnitKind,
    operator: BinaryOperator,
    ty: CType,
    left: &Operand,
    right: &Operand,
) -> bool
    ensures { result ≡ is_shared kind.now operator ty left.now right.now }
{
    is_of(kind, operator, ty) && !has_constant(left, right)
}

/// Whether an operation shares a unit of the kind.
pub fn is_work(kind: &UnitKind, operation: &Operation) -> bool
    ensures { result ≡ is_work kind.now operation.now }
{
    match operation {
        Operation::Binary {
            operator,
            ty,
            left,
            right,
        } => is_shared(kind, *operator, *ty, left, right),
        _ => false,
    }
}
