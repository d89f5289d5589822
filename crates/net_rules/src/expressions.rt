// The rules of expressions.

ghost use Rattle.std.specs.Prelude.{◌≡◌, ◌^◌, ◌*◌, ◌==◌, ◌&&◌, nat_lt};
ghost use Rattle.verilog_tree.specs.Rules as rule;

use crate::kinds::{driven_width, has_words, memory_width, ranged_width, read_width};
use crate::names::Scope;
use verilog_tree::name::Identifier;
use verilog_tree::tree::{BinaryOperator, Constant, Expression};

/// The width of a signal, and 0 of another name.
pub fn width(scope: &Scope, name: &Identifier) -> u64
    ensures { result ≡ rule.width scope.now name.now }
{
    read_width(scope.kind(name))
}

/// Whether the name is a signal.
pub fn is_signal(scope: &Scope, name: &Identifier) -> bool
    ensures { result ≡ rule.is_signal scope.now name.now }
{
    width(scope, name) > 0
}

/// Whether the name is a signal of this width.
pub fn has_width(scope: &Scope, name: &Identifier, wanted: u64) -> bool
    ensures { result ≡ rule.has_width scope.now name.now wanted }
{
    let width = width(scope, name);
    width > 0 && width == wanted
}

fn is_below(value: u64, width: u64) -> bool
    ensures { result ≡ nat_lt value (2 ^ width) }
{
    width >= 64 || value < 2_u64.pow(width as u32)
}

/// Whether the constant has this width and is below 2 to it.
pub fn is_constant(constant: Constant, width: u64) -> bool
    ensures { result ≡ rule.is_constant constant width }
{
    constant.width == width && is_below(constant.value, width)
}

fn is_zero(constant: Constant, width: u64) -> bool
    ensures { result ≡ rule.is_zero constant width }
{
    constant.width == width && constant.value == 0
}

fn binary_right(
    scope: &Scope,
    operator: BinaryOperator,
    left: &Identifier,
    right: &Identifier,
    wide: u64,
) -> bool
    ensures { result ≡ rule.binary_right scope.now operator left.now right.now wide }
{
    match operator {
        BinaryOperator::Equal | BinaryOperator::Less => {
            wide == 1 && has_width(scope, left, width(scope, right))
        }
        BinaryOperator::ShiftLeft | BinaryOperator::ShiftRight => {
            has_width(scope, left, wide) && is_signal(scope, right)
        }
        BinaryOperator::Add
        | BinaryOperator::Subtract
        | BinaryOperator::Multiply
        | BinaryOperator::And
        | BinaryOperator::Or
        | BinaryOperator::Xor => has_width(scope, left, wide) && has_width(scope, right, wide),
    }
}

fn division_right(
    scope: &Scope,
    tested: &Identifier,
    zero: Constant,
    guarded: Constant,
    left: &Identifier,
    right: &Identifier,
    wide: u64,
) -> bool
    ensures { result ≡ rule.division_right scope.now tested.now zero guarded left.now right.now wide }
{
    tested.as_str() == right.as_str()
        && is_zero(zero, wide)
        && is_zero(guarded, wide)
        && has_width(scope, left, wide)
        && has_width(scope, right, wide)
}

fn memory_read_right(
    scope: &Scope,
    tested: &Identifier,
    bound: Constant,
    memory: &Identifier,
    address: &Identifier,
    guarded: Constant,
    wide: u64,
) -> bool
    ensures { result ≡ rule.memory_read_right scope.now tested.now bound memory.now address.now guarded wide }
{
    let kind = scope.kind(memory);
    tested.as_str() == address.as_str()
        && is_signal(scope, address)
        && is_constant(bound, width(scope, address))
        && has_words(kind, bound.value)
        && memory_width(kind) == wide
        && is_zero(guarded, wide)
}

fn part_select_right(scope: &Scope, of: &Identifier, high: u64, low: u64, wide: u64) -> bool
    ensures { result ≡ rule.part_select_right scope.now of.now high low wide }
{
    low <= high && high < ranged_width(scope.kind(of)) && wide > 0 && wide - 1 == high - low
}

/// Whether the parts are signals and have this width together.
fn concatenation_right(scope: &Scope, parts: &[Identifier], wide: u64) -> bool
    ensures { result ≡ (rule.all_right (rule.is_signal scope.now) parts.now && rule.joint_width scope.now parts.now == wide) }
{
    let mut left = wide;
    for part in parts {
        let width = width(scope, part);
        if width == 0 || width > left {
            return false;
        }
        left -= width;
    }
    left == 0
}

fn replication_right(scope: &Scope, count: u64, of: &Identifier, wide: u64) -> bool
    ensures { result ≡ (rule.is_signal scope.now of.now && count * rule.width scope.now of.now == wide) }
{
    let width = width(scope, of);
    match count.checked_mul(width) {
        None => false,
        Some(all) => width > 0 && all == wide,
    }
}

/// Whether the right side's names are signals, and its widths agree with those of a target of this width.
pub fn expression_right(scope: &Scope, value: &Expression, wide: u64) -> bool
    ensures { result ≡ rule.expression_right scope.now value.now wide }
{
    match value {
        Expression::Copy(of) | Expression::BitwiseNot(of) => has_width(scope, of, wide),
        Expression::Constant(constant) => is_constant(*constant, wide),
        Expression::Binary {
            operator,
            left,
            right,
        } => binary_right(scope, *operator, left, right, wide),
        Expression::SignedLess { left, right } => {
            wide == 1 && has_width(scope, left, width(scope, right))
        }
        Expression::ArithmeticShiftRight { left, right } => {
            has_width(scope, left, wide) && is_signal(scope, right)
        }
        Expression::Conditional {
            condition,
            if_true,
            if_false,
        } => {
            has_width(scope, condition, 1)
                && has_width(scope, if_true, wide)
                && has_width(scope, if_false, wide)
        }
        Expression::Division {
            tested,
            zero,
            guarded,
            left,
            right,
            ..
        }
        | Expression::SignedDivision {
            tested,
            zero,
            guarded,
            left,
            right,
            ..
        } => division_right(scope, tested, *zero, *guarded, left, right, wide),
        Expression::MemoryRead {
            tested,
            bound,
            memory,
            address,
            guarded,
        } => memory_read_right(scope, tested, *bound, memory, address, *guarded, wide),
        Expression::BitSelect { of, bit } => wide == 1 && *bit < ranged_width(scope.kind(of)),
        Expression::PartSelect { of, high, low } => part_select_right(scope, of, *high, *low, wide),
        Expression::Concatenation(parts) => concatenation_right(scope, parts.as_slice(), wide),
        Expression::Replication { count, of } => replication_right(scope, *count, of, wide),
    }
}

/// Whether the target can be driven, and the right side fits it.
pub fn assign_right(scope: &Scope, target: &Identifier, value: &Expression) -> bool
    ensures { result ≡ rule.assign_right scope.now target.now value.now }
{
    let wide = driven_width(scope.kind(target));
    wide > 0 && expression_right(scope, value, wide)
}
