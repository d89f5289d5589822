// Constants, and the values of constant expressions (C99 6.6).

ghost use Rattle.std.specs.Prelude.{◌≡◌, map, fold, option_map};
ghost use Rattle.hls_ints.specs.Types.{HasType};
ghost use Rattle.c_rules.specs.Constants as spec;
ghost use Rattle.c_rules.specs.Specifiers.{c_type};

use crate::specifiers::{BasicType, plain_integer};
use c_token::{Constant, ConstantType};
use c_tree::{BinaryOperator, Expression, Form, Term, UnaryOperator};
use hls_ints::{
    CType, c_add, c_and, c_div, c_equal, c_less, c_mul, c_neg, c_not, c_or, c_rem, c_shl, c_shr,
    c_sub, c_xor, promote, usual, wrap,
};

/// A value of a type.
#[derive(Clone, Copy)]
pub struct Typed {
    pub ty: CType,
    pub number: i128,
}

/// What an expression is as a constant expression.
#[derive(Clone, Copy)]
pub enum Constancy {
    Constant(Typed),
    /// A constant or a type in it breaks a rule of its own, so that it has no value.
    Unknown,
    /// It is none: it has a name, a call, a short circuit or a choice, or an undefined step.
    NotConstant,
}

/// The value of a constant; none of one that has no type.
pub fn constant_value(constant: Constant) -> Option<Typed>
    ensures { result ≡ spec.constant_value constant }
{
    let Constant::Typed(value, ty) = constant else {
        return None;
    };
    let ty = match ty {
        ConstantType::Int => CType::INT,
        ConstantType::Unsigned => CType::UNSIGNED_INT,
        ConstantType::Long => CType::LONG,
        ConstantType::UnsignedLong => CType::UNSIGNED_LONG,
    };
    Some(Typed {
        ty,
        number: i128::from(value),
    })
}

/// 1 for 0, else 0.
fn opposite(number: i128) -> i128
    ensures { result ≡ spec.opposite number }
{
    if number == 0 { 1 } else { 0 }
}

/// The number as a constant of the type; none where a step was undefined.
fn constant_of(ty: CType, number: Option<i128>) -> Constancy
    ensures { result ≡ spec.from_value (spec.typed_if ty number) }
{
    match number {
        Some(number) => Constancy::Constant(Typed { ty, number }),
        None => Constancy::NotConstant,
    }
}

/// A shift of a value of the type by the count.
fn shift_value(operator: BinaryOperator, ty: CType, a: i128, count: i128) -> Option<i128>
    requires { HasType ty a }
    ensures { result ≡ spec.shift_value operator ty a count }
{
    match operator {
        BinaryOperator::ShiftLeft => c_shl(ty, a, count),
        _ => c_shr(ty, a, count),
    }
}

/// A shift of a value by another, each of which is promoted by itself.
fn shift(operator: BinaryOperator, left: Typed, right: Typed) -> Constancy
    ensures { result ≡ spec.from_value (spec.shift operator left right) }
{
    let ty = promote(left.ty);
    let count = wrap(promote(right.ty), right.number);
    constant_of(ty, shift_value(operator, ty, wrap(ty, left.number), count))
}

/// An operator on two values of the type.
fn binary_value(operator: BinaryOperator, ty: CType, a: i128, b: i128) -> Option<i128>
    requires left { HasType ty a }
    requires right { HasType ty b }
    ensures { result ≡ spec.binary_value operator ty a b }
{
    match operator {
        BinaryOperator::BitOr => c_or(ty, a, b),
        BinaryOperator::BitXor => c_xor(ty, a, b),
        BinaryOperator::BitAnd => c_and(ty, a, b),
        BinaryOperator::Equal => c_equal(ty, a, b),
        BinaryOperator::NotEqual => Some(opposite(c_equal(ty, a, b)?)),
        BinaryOperator::Less => c_less(ty, a, b),
        BinaryOperator::Greater => c_less(ty, b, a),
        BinaryOperator::LessEqual => Some(opposite(c_less(ty, b, a)?)),
        BinaryOperator::GreaterEqual => Some(opposite(c_less(ty, a, b)?)),
        BinaryOperator::Add => c_add(ty, a, b),
        BinaryOperator::Subtract => c_sub(ty, a, b),
        BinaryOperator::Multiply => c_mul(ty, a, b),
        BinaryOperator::Divide => c_div(ty, a, b),
        BinaryOperator::Remainder => c_rem(ty, a, b),
        BinaryOperator::LogicalOr
        | BinaryOperator::LogicalAnd
        | BinaryOperator::ShiftLeft
        | BinaryOperator::ShiftRight => None,
    }
}

/// An operator on two values that are converted to their common type.
fn common(operator: BinaryOperator, left: Typed, right: Typed) -> Constancy
    ensures { result ≡ spec.from_value (spec.common operator left right) }
{
    let ty = usual(left.ty, right.ty);
    let a = wrap(ty, left.number);
    let b = wrap(ty, right.number);
    let number = binary_value(operator, ty, a, b);
    match operator {
        BinaryOperator::Equal
        | BinaryOperator::NotEqual
        | BinaryOperator::Less
        | BinaryOperator::Greater
        | BinaryOperator::LessEqual
        | BinaryOperator::GreaterEqual => constant_of(CType::INT, number),
        _ => constant_of(ty, number),
    }
}

/// A unary operator on an operand.
fn operated(operator: UnaryOperator, operand: Constancy) -> Constancy
    ensures { result ≡ spec.operated operator operand }
{
    let Constancy::Constant(value) = operand else {
        return operand;
    };
    let ty = promote(value.ty);
    let a = wrap(ty, value.number);
    match operator {
        UnaryOperator::Plus => constant_of(ty, Some(a)),
        UnaryOperator::Minus => constant_of(ty, c_neg(ty, a)),
        UnaryOperator::Complement => constant_of(ty, c_not(ty, a)),
        UnaryOperator::Not => constant_of(CType::INT, Some(opposite(a))),
    }
}

/// An operator between two operands.
fn joined(operator: BinaryOperator, left: Constancy, right: Constancy) -> Constancy
    ensures { result ≡ spec.joined operator left right }
{
    if matches!(
        operator,
        BinaryOperator::LogicalOr | BinaryOperator::LogicalAnd
    ) {
        return Constancy::NotConstant;
    }
    match (left, right) {
        (Constancy::NotConstant, _) | (_, Constancy::NotConstant) => Constancy::NotConstant,
        (Constancy::Constant(left), Constancy::Constant(right)) => match operator {
            BinaryOperator::ShiftLeft | BinaryOperator::ShiftRight => shift(operator, left, right),
            _ => common(operator, left, right),
        },
        _ => Constancy::Unknown,
    }
}

/// A cast of an operand; the type is none where its words spell none.
fn cast(ty: Option<BasicType>, operand: Constancy) -> Constancy
    ensures { result ≡ spec.cast (option_map c_type ty) operand }
{
    match (ty, operand) {
        (_, Constancy::NotConstant) => Constancy::NotConstant,
        (Some(ty), Constancy::Constant(value)) => {
            let ty = ty.c_type();
            Constancy::Constant(Typed {
                ty,
                number: wrap(ty, value.number),
            })
        }
        _ => Constancy::Unknown,
    }
}

/// What the expression is as a constant expression, and its value.
pub fn constancy_of(expression: &Expression) -> Constancy
    ensures { result ≡ spec.constancy expression.now }
{
    match &expression.form {
        Form::Constant(constant, _) => match constant_value(*constant) {
            Some(value) => Constancy::Constant(value),
            None => Constancy::Unknown,
        },
        Form::Place(_) | Form::Call(_) | Form::Conditional(_, _) => Constancy::NotConstant,
        Form::Unary(operator, operand) => operated(*operator, constancy_of(operand.get())),
        Form::Cast(specifiers, operand) => {
            cast(plain_integer(specifiers), constancy_of(operand.get()))
        }
        Form::Binary(first, more) => {
            let mut value = constancy_of(first.get());
            for term in more.as_slice() {
                value = joined(term.operator, value, constancy_of(&term.operand));
            }
            value
        }
    }
}

/// How many operators and casts the expression has.
pub fn operator_count(expression: &Expression) -> u32
    ensures { result ≡ spec.operator_count expression.now }
{
    match &expression.form {
        Form::Constant(_, _) | Form::Place(_) | Form::Call(_) | Form::Conditional(_, _) => 0,
        Form::Unary(_, operand) => operator_count(operand.get()).saturating_add(1),
        Form::Cast(_, operand) => operator_count(operand.get()).saturating_add(1),
        Form::Binary(first, more) => {
            let mut count = operator_count(first.get());
            for term in more.as_slice() {
                count = count
                    .saturating_add(operator_count(&term.operand))
                    .saturating_add(1);
            }
            count
        }
    }
}
