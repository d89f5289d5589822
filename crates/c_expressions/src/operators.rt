// Operators on values of the program (C99 6.5.3 to 6.5.12).

ghost use Rattle.std.specs.Prelude.{◌≡◌, IfOk};
ghost use Rattle.c_program.specs.Plain.{expression_of};
ghost use Rattle.c_program.specs.Types.{working_type as working_type_of};
ghost use Rattle.c_rules.specs.Walks.{Outcome, Walks};
ghost use Rattle.c_expressions.specs.Expressions as spec;

use c_program::tree as resolved;
use c_program::types::expression_type;
use c_rules::constants::constant_value;
use c_rules::fault::Rule;
use c_rules::findings::Findings;
use c_rules::specifiers::BasicType;
use c_token::Constant;
use c_tree::{BinaryOperator, UnaryOperator};
use hls_ints::{CType, promote, usual};
use std::alloc::{AllocError, Global};

/// What stands for an expression that breaks a rule.
pub fn nothing() -> resolved::Expression
    ensures { expression_of result ≡ spec.nothing }
{
    resolved::Expression::Constant(CType::INT, 0)
}

/// A rule is broken at the place; what stands for the expression.
fn refused(found: &mut Findings, rule: Rule, offset: usize) -> resolved::Expression
    ensures { spec.refused rule offset found.old ≡ Outcome.Gives (expression_of result) found.new }
{
    found.add(rule, offset);
    nothing()
}

#[tactic(auto, unfolding(crate::specs::Expressions::constant))]
pub fn constant(found: &mut Findings, constant: Constant, offset: usize) -> resolved::Expression
    ensures { spec.constant constant offset found.old ≡ Outcome.Gives (expression_of result) found.new }
{
    match constant_value(constant) {
        Some(value) => resolved::Expression::Constant(value.ty, value.number),
        None => refused(found, Rule::Constant, offset),
    }
}

/// Whether the type is `long`.
pub fn is_long(ty: Option<BasicType>) -> bool
    ensures { result ≡ spec.is_long ty }
{
    matches!(ty, Some(BasicType::Long))
}

/// A value converted to a type.
#[tactic(auto, unfolding(crate::specs::Expressions::converted))]
pub fn converted(
    alloc: Global,
    found: &mut Findings,
    offset: usize,
    ty: Option<BasicType>,
    value: resolved::Expression,
) -> Result<resolved::Expression, AllocError>
    ensures { Walks expression_of (spec.converted offset ty (expression_of value) found.old) result found.new }
{
    match ty {
        Some(ty) => Ok(resolved::Expression::Cast(ty.c_type(), Box::new(alloc, value)?)),
        None => Ok(refused(found, Rule::Kind, offset)),
    }
}

fn unary_operator(operator: UnaryOperator) -> resolved::UnaryOperator
    ensures { result ≡ spec.unary_operator operator }
{
    match operator {
        UnaryOperator::Plus => resolved::UnaryOperator::Plus,
        UnaryOperator::Minus => resolved::UnaryOperator::Minus,
        UnaryOperator::Complement => resolved::UnaryOperator::Complement,
        UnaryOperator::Not => resolved::UnaryOperator::Not,
    }
}

/// A unary operator on a value.
pub fn unary(
    alloc: Global,
    operator: UnaryOperator,
    operand: resolved::Expression,
) -> Result<resolved::Expression, AllocError>
    ensures { IfOk result (λ e. expression_of e ≡ spec.unary operator (expression_of operand)) }
{
    let ty = promote(expression_type(&operand));
    let operand = Box::new(alloc, operand)?;
    Ok(resolved::Expression::Unary(unary_operator(operator), ty, operand))
}

/// The operator without a short circuit, if it is one.
pub fn binary_operator(operator: BinaryOperator) -> Option<resolved::BinaryOperator>
    ensures { result ≡ spec.binary_operator operator }
{
    match operator {
        BinaryOperator::LogicalOr | BinaryOperator::LogicalAnd => None,
        BinaryOperator::BitOr => Some(resolved::BinaryOperator::InclusiveOr),
        BinaryOperator::BitXor => Some(resolved::BinaryOperator::ExclusiveOr),
        BinaryOperator::BitAnd => Some(resolved::BinaryOperator::And),
        BinaryOperator::Equal => Some(resolved::BinaryOperator::Equal),
        BinaryOperator::NotEqual => Some(resolved::BinaryOperator::NotEqual),
        BinaryOperator::Less => Some(resolved::BinaryOperator::Less),
        BinaryOperator::Greater => Some(resolved::BinaryOperator::Greater),
        BinaryOperator::LessEqual => Some(resolved::BinaryOperator::LessEqual),
        BinaryOperator::GreaterEqual => Some(resolved::BinaryOperator::GreaterEqual),
        BinaryOperator::ShiftLeft => Some(resolved::BinaryOperator::ShiftLeft),
        BinaryOperator::ShiftRight => Some(resolved::BinaryOperator::ShiftRight),
        BinaryOperator::Add => Some(resolved::BinaryOperator::Add),
        BinaryOperator::Subtract => Some(resolved::BinaryOperator::Subtract),
        BinaryOperator::Multiply => Some(resolved::BinaryOperator::Multiply),
        BinaryOperator::Divide => Some(resolved::BinaryOperator::Divide),
        BinaryOperator::Remainder => Some(resolved::BinaryOperator::Remainder),
    }
}

/// The type in which an operator works on operands of the two types (C99 6.3.1.8, 6.5.7).
pub fn working_type(operator: resolved::BinaryOperator, left: CType, right: CType) -> CType
    ensures { result ≡ working_type_of operator left right }
{
    match operator {
        resolved::BinaryOperator::ShiftLeft | resolved::BinaryOperator::ShiftRight => promote(left),
        _ => usual(left, right),
    }
}

/// An operator between two values; it is no short circuit.
pub fn operated(
    alloc: Global,
    operator: BinaryOperator,
    left: resolved::Expression,
    right: resolved::Expression,
) -> Result<resolved::Expression, AllocError>
    ensures { IfOk result (λ e. expression_of e ≡ spec.operated operator (expression_of left) (expression_of right)) }
{
    let Some(operator) = binary_operator(operator) else {
        return Ok(nothing());
    };
    let ty = working_type(operator, expression_type(&left), expression_type(&right));
    let left = Box::new(alloc, left)?;
    let right = Box::new(alloc, right)?;
    Ok(resolved::Expression::Binary(operator, ty, left, right))
}
