// Operators on words.

ghost use Rattle.std.specs.Prelude.{◌≡◌, ◌+◌, ◌-◌, ◌*◌, ◌/◌, ◌%◌, ◌^◌, ◌≤◌, ◌<◌};
ghost use Rattle.hls_ints.specs.Words.{word};
ghost use Rattle.circuit.specs.Readings.{binary as binary_word, divided as divided_word, signed_divided as signed_divided_word, repeated as repeated_word};

use hls_ints::{
    v_add, v_and, v_div, v_equal, v_less, v_mul, v_or, v_rem, v_sdiv, v_shl, v_shr, v_srem, v_sub,
    v_xor,
};
use verilog_tree::tree::{BinaryOperator, DivisionOperator};

/// The value of an operator on two numbers of `width` bits, 1 to 64.
pub fn binary(operator: BinaryOperator, width: u32, left: u64, right: u64) -> u64
    requires low { 1 ≤ width }
    requires high { width ≤ 64 }
    ensures { result ≡ binary_word operator width left right }
{
    match operator {
        BinaryOperator::Add => v_add(width, left, right),
        BinaryOperator::Subtract => v_sub(width, left, right),
        BinaryOperator::Multiply => v_mul(width, left, right),
        BinaryOperator::And => v_and(width, left, right),
        BinaryOperator::Or => v_or(width, left, right),
        BinaryOperator::Xor => v_xor(width, left, right),
        BinaryOperator::Equal => v_equal(width, left, right),
        BinaryOperator::Less => v_less(width, left, right),
        BinaryOperator::ShiftLeft => v_shl(width, left, right),
        BinaryOperator::ShiftRight => v_shr(width, left, right),
    }
}

/// The value of a guarded division, which is 0 where the divisor is 0.
pub fn divided(operator: DivisionOperator, width: u32, left: u64, right: u64) -> u64
    requires low { 1 ≤ width }
    requires high { width ≤ 64 }
    ensures { result ≡ divided_word operator width left right }
{
    match operator {
        DivisionOperator::Quotient => v_div(width, left, right),
        DivisionOperator::Remainder => v_rem(width, left, right),
    }
}

/// The same of two's complement numbers.
pub fn signed_divided(operator: DivisionOperator, width: u32, left: u64, right: u64) -> u64
    requires low { 1 ≤ width }
    requires high { width ≤ 64 }
    ensures { result ≡ signed_divided_word operator width left right }
{
    match operator {
        DivisionOperator::Quotient => v_sdiv(width, left, right),
        DivisionOperator::Remainder => v_srem(width, left, right),
    }
}

/// Bits `low` to `high` of a number.
pub fn selected(number: u64, high: u64, low: u64) -> u64
    requires order { low ≤ high }
    requires room { high < 64 }
    ensures { result ≡ (number / 2 ^ low) % 2 ^ (high + 1 - low) }
{
    let above = number / (1u64 << low);
    (above as u128 % (1u128 << (high + 1 - low))) as u64
}

/// A number of `width` bits behind those above, modulo 2 to the 64.
pub fn beside(above: u64, width: u32, number: u64) -> u64
    requires { width ≤ 64 }
    ensures { result ≡ word 64 (above * 2 ^ width + number) }
{
    (((above as u128) * (1u128 << width) + number as u128) % (1u128 << 64)) as u64
}

/// `count` copies of a number of `width` bits side by side, modulo 2 to the 64.
pub fn repeated(count: u64, width: u32, number: u64) -> u64
    requires { width ≤ 64 }
    ensures { result ≡ word 64 (repeated_word count width number) }
{
    let mut above = 0;
    for _copy in 0..count {
        above = beside(above, width, number);
    }
    above
}
