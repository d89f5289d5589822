// The value of an expression: the operands from left to right, then the operator (C99 6.5).
ghost use Rattle.std.specs.Prelude.{◌≡◌, ◌&&◌, not, pos, int_le, IfOk};
ghost use Rattle.hls_ints.specs.Residues.{bit_of};
ghost use Rattle.hls_ints.specs.Operators.{equal_of};
ghost use Rattle.hls_ints.specs.Types.{HasType, wrapped};
ghost use Rattle.c_program.specs.Plain.{expression_of, expressions_of};
ghost use Rattle.thread_semantics.specs.Memory.{element};
ghost use Rattle.thread_semantics.specs.Value.{value, values, load, checked_index, unary_result, binary_result, right_operand, unary_value, binary_value, kept_value, row_number};
ghost use Rattle.c_evaluation.specs.Outcome.{outcome, rows_of, memory_of, list_result};

use c_program::tree::{BinaryOperator, Expression, Storage, UnaryOperator};
use hls_ints::{ArithmeticFault, CType, c_and, c_not, c_or, c_xor, operators, wrap};
use std::alloc::{AllocError, Global};
use thread_semantics::UndefinedCause;

/// A unary operator on a value of the type in which it works.
fn unary_result(operator: UnaryOperator, ty: CType, a: i128) -> Result<i128, ArithmeticFault>
    requires { HasType ty a }
    ensures { result ≡ unary_result operator ty a }
{
    match operator {
        UnaryOperator::Plus => Ok(a),
        UnaryOperator::Minus => operators::negate(ty, a),
        UnaryOperator::Complement => c_not(ty, a).ok_or(ArithmeticFault::Overflow),
        UnaryOperator::Not => Ok((a == 0) as i128),
    }
}

/// A unary operator on any value, which is converted to the type in which the operator works.
pub fn unary(operator: UnaryOperator, ty: CType, a: i128) -> Result<i128, UndefinedCause>
    ensures { result ≡ outcome (unary_value operator ty a) }
{
    unary_result(operator, ty, wrap(ty, a)).map_err(UndefinedCause::Arithmetic)
}

/// a <= b: the int 1 or 0
fn at_most(a: i128, b: i128) -> i128
    ensures { result ≡ pos (bit_of (int_le a b)) }
{
    (a <= b) as i128
}

/// a == b: the int 1 or 0
fn equal(a: i128, b: i128) -> i128
    ensures { result ≡ equal_of a b }
{
    (a == b) as i128
}

/// a != b: the int 1 or 0
fn differs(a: i128, b: i128) -> i128
    ensures { result ≡ pos (bit_of (not (int_le a b && int_le b a))) }
{
    (a != b) as i128
}

/// A binary operator on values that are converted to the type in which it works; the count of a shift keeps its own.
fn binary_result(
    operator: BinaryOperator,
    ty: CType,
    left: i128,
    right: i128,
) -> Result<i128, ArithmeticFault>
    ensures { result ≡ binary_result operator ty (wrapped ty left) (right_operand operator ty right) }
{
    let a = wrap(ty, left);
    let b = wrap(ty, right);
    match operator {
        BinaryOperator::Multiply => operators::multiply(ty, a, b),
        BinaryOperator::Divide => operators::divide(ty, a, b),
        BinaryOperator::Remainder => operators::remainder(ty, a, b),
        BinaryOperator::Add => operators::add(ty, a, b),
        BinaryOperator::Subtract => operators::subtract(ty, a, b),
        BinaryOperator::ShiftLeft => operators::shift_left(ty, a, right),
        BinaryOperator::ShiftRight => operators::shift_right(ty, a, right),
        BinaryOperator::Less => Ok((a < b) as i128),
        BinaryOperator::Greater => Ok((b < a) as i128),
        BinaryOperator::LessEqual => Ok(at_most(a, b)),
        BinaryOperator::GreaterEqual => Ok(at_most(b, a)),
        BinaryOperator::Equal => Ok(equal(a, b)),
        BinaryOperator::NotEqual => Ok(differs(a, b)),
        BinaryOperator::And => c_and(ty, a, b).ok_or(ArithmeticFault::Overflow),
        BinaryOperator::ExclusiveOr => c_xor(ty, a, b).ok_or(ArithmeticFault::Overflow),
        BinaryOperator::InclusiveOr => c_or(ty, a, b).ok_or(ArithmeticFault::Overflow),
    }
}

/// A binary operator on any values.
pub fn binary(
    operator: BinaryOperator,
    ty: CType,
    left: i128,
    right: i128,
) -> Result<i128, UndefinedCause>
    ensures { result ≡ outcome (binary_value operator ty left right) }
{
    binary_result(operator, ty, left, right).map_err(UndefinedCause::Arithmetic)
}

/// An index into an array of that length.
pub fn index_within(length: u64, index: i128) -> Result<u64, UndefinedCause>
    ensures { result ≡ outcome (checked_index length index) }
{
    if 0 <= index && index < i128::from(length) {
        Ok(index as u64)
    } else {
        Err(UndefinedCause::Index)
    }
}

/// What an element of a variable holds.
pub fn loaded(
    storage: Storage,
    variable: u32,
    index: u64,
    locals: &[Vec<Option<i128>>],
    globals: &[Vec<i128>],
) -> Result<i128, UndefinedCause>
    ensures { result ≡ outcome (load (memory_of locals.now globals.now) storage variable index) }
{
    match storage {
        Storage::Automatic => match locals.get(variable as usize) {
            None => Err(UndefinedCause::Unwritten),
            Some(row) => match row.get(index as usize) {
                Some(Some(v)) => Ok(*v),
                _ => Err(UndefinedCause::Unwritten),
            },
        },
        Storage::Static => match globals.get(variable as usize) {
            None => Err(UndefinedCause::Index),
            Some(row) => match row.get(index as usize) {
                Some(v) => Ok(*v),
                None => Err(UndefinedCause::Index),
            },
        },
    }
}

/// The number of an element of an array of several dimensions, at unsigned long (C99 6.5.2.1): rows are of that length, and
/// it is element j of row i.
fn row_number(length: u64, i: u64, j: u64) -> Result<i128, UndefinedCause>
    ensures { result ≡ outcome (row_number length i j) }
{
    let rows = binary(
        BinaryOperator::Multiply,
        CType::UNSIGNED_LONG,
        i128::from(i),
        i128::from(length),
    )?;
    binary(
        BinaryOperator::Add,
        CType::UNSIGNED_LONG,
        rows,
        i128::from(j),
    )
}

/// A value that a local keeps as a long, in its own type; a call may have given none.
fn kept(slot: u32, ty: CType, locals: &[Vec<Option<i128>>]) -> Result<i128, UndefinedCause>
    ensures { result ≡ outcome (kept_value ty (element (rows_of locals.now) slot 0)) }
{
    match locals.get(slot as usize) {
        None => Err(UndefinedCause::NoValue),
        Some(row) => match row.first() {
            Some(Some(v)) => Ok(wrap(ty, *v)),
            _ => Err(UndefinedCause::NoValue),
        },
    }
}

/// The value of an expression, given the locals of the call at hand and the globals, or the first cause why it has
/// none.
pub fn evaluate(
    expression: &Expression,
    locals: &[Vec<Option<i128>>],
    globals: &[Vec<i128>],
) -> Result<i128, UndefinedCause>
    ensures { result ≡ outcome (value (expression_of expression.now) (memory_of locals.now globals.now)) }
{
    match expression {
        Expression::Constant(_, number) => Ok(*number),
        Expression::Variable(storage, variable, _) => {
            loaded(*storage, *variable, 0, locals, globals)
        }
        Expression::Element(storage, variable, length, _, index) => {
            let i = evaluate(index, locals, globals)?;
            let j = index_within(*length, i)?;
            loaded(*storage, *variable, j, locals, globals)
        }
        Expression::Unary(operator, ty, operand) => {
            let a = evaluate(operand, locals, globals)?;
            unary(*operator, *ty, a)
        }
        Expression::Binary(operator, ty, left, right) => {
            let a = evaluate(left, locals, globals)?;
            let b = evaluate(right, locals, globals)?;
            binary(*operator, *ty, a, b)
        }
        Expression::Cast(ty, operand) => {
            let a = evaluate(operand, locals, globals)?;
            Ok(wrap(*ty, a))
        }
        Expression::Row(outer, outer_length, inner, inner_length) => {
            let a = evaluate(outer, locals, globals)?;
            let i = index_within(*outer_length, a)?;
            let b = evaluate(inner, locals, globals)?;
            let j = index_within(*inner_length, b)?;
            row_number(*inner_length, i, j)
        }
        Expression::Kept(slot, ty) => kept(*slot, *ty, locals),
    }
}

/// The values of arguments, from left to right, or the first cause why one has none.
pub fn evaluate_all(
    alloc: Global,
    expressions: &[Expression],
    locals: &[Vec<Option<i128>>],
    globals: &[Vec<i128>],
) -> Result<Result<Vec<i128>, UndefinedCause>, AllocError>
    ensures { IfOk result (λ r. list_result r ≡ outcome (values (expressions_of expressions.now) (memory_of locals.now globals.now))) }
{
    let mut list = Vec::new(alloc);
    for expression in expressions {
        match evaluate(expression, locals, globals) {
            Ok(v) => list.push(v)?,
            Err(cause) => return Ok(Err(cause)),
        }
    }
    Ok(Ok(list))
}
