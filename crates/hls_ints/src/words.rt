// The operators of Verilog on words of 1 to 64 bits, in two states. Operands are read modulo 2 to the width.
ghost use Rattle.std.specs.Prelude.{◌≡◌, ◌≤◌, ◌<◌, ◌^◌};
ghost use Rattle.hls_ints.specs.Words.{word, word_sum, word_difference, word_product, word_quotient, word_remainder, signed_quotient, signed_remainder, word_less};
ghost use Rattle.hls_ints.specs.Words.{signed_less, word_equal, word_complement, word_and, word_exclusive_or, word_inclusive_or, left_shift, right_shift, arithmetic_shift};

use crate::residues::{residue, signed_value};

/// The operand modulo 2 to the width.
fn read(width: u32, a: u64) -> u64
    requires at_least { 1 ≤ width }
    requires at_most { width ≤ 64 }
    ensures value { result ≡ word width a }
    ensures below { result < 2 ^ width }
{
    (a as u128 % (1u128 << width)) as u64
}

/// a + b
pub fn v_add(width: u32, a: u64, b: u64) -> u64
    requires at_least { 1 ≤ width }
    requires at_most { width ≤ 64 }
    ensures value { result ≡ word_sum width a b }
    ensures below { result < 2 ^ width }
{
    ((a as u128 + b as u128) % (1u128 << width)) as u64
}

/// a - b
pub fn v_sub(width: u32, a: u64, b: u64) -> u64
    requires at_least { 1 ≤ width }
    requires at_most { width ≤ 64 }
    ensures value { result ≡ word_difference width a b }
    ensures below { result < 2 ^ width }
{
    residue(width, a as i128 - b as i128)
}

/// a * b
pub fn v_mul(width: u32, a: u64, b: u64) -> u64
    requires at_least { 1 ≤ width }
    requires at_most { width ≤ 64 }
    ensures value { result ≡ word_product width a b }
    ensures below { result < 2 ^ width }
{
    ((a as u128 * b as u128) % (1u128 << width)) as u64
}

/// a / b, and 0 where b is 0
pub fn v_div(width: u32, a: u64, b: u64) -> u64
    requires at_least { 1 ≤ width }
    requires at_most { width ≤ 64 }
    ensures value { result ≡ word_quotient width a b }
    ensures below { result < 2 ^ width }
{
    read(width, a).checked_div(read(width, b)).unwrap_or(0)
}

/// a % b, and 0 where b is 0
pub fn v_rem(width: u32, a: u64, b: u64) -> u64
    requires at_least { 1 ≤ width }
    requires at_most { width ≤ 64 }
    ensures value { result ≡ word_remainder width a b }
    ensures below { result < 2 ^ width }
{
    read(width, a).checked_rem(read(width, b)).unwrap_or(0)
}

/// `$signed(a) / $signed(b)`, rounded toward zero, and 0 where b is 0
#[tactic(auto, unfolding(crate::specs::Residues::signed_value_of))]
pub fn v_sdiv(width: u32, a: u64, b: u64) -> u64
    requires at_least { 1 ≤ width }
    requires at_most { width ≤ 64 }
    ensures value { result ≡ signed_quotient width a b }
    ensures below { result < 2 ^ width }
{
    let divisor = read(width, b);
    if divisor == 0 {
        return 0;
    }
    residue(
        width,
        signed_value(width, read(width, a)) / signed_value(width, divisor),
    )
}

/// `$signed(a) % $signed(b)`, with the sign of a, and 0 where b is 0
#[tactic(auto, unfolding(crate::specs::Residues::signed_value_of))]
pub fn v_srem(width: u32, a: u64, b: u64) -> u64
    requires at_least { 1 ≤ width }
    requires at_most { width ≤ 64 }
    ensures value { result ≡ signed_remainder width a b }
    ensures below { result < 2 ^ width }
{
    let divisor = read(width, b);
    if divisor == 0 {
        return 0;
    }
    residue(
        width,
        signed_value(width, read(width, a)) % signed_value(width, divisor),
    )
}

/// a < b: 1 or 0
pub fn v_less(width: u32, a: u64, b: u64) -> u64
    requires at_least { 1 ≤ width }
    requires at_most { width ≤ 64 }
    ensures { result ≡ word_less width a b }
{
    (read(width, a) < read(width, b)) as u64
}

/// `$signed(a) < $signed(b)`: 1 or 0
pub fn v_sless(width: u32, a: u64, b: u64) -> u64
    requires at_least { 1 ≤ width }
    requires at_most { width ≤ 64 }
    ensures { result ≡ signed_less width a b }
{
    (signed_value(width, read(width, a)) < signed_value(width, read(width, b))) as u64
}

/// a == b: 1 or 0
pub fn v_equal(width: u32, a: u64, b: u64) -> u64
    requires at_least { 1 ≤ width }
    requires at_most { width ≤ 64 }
    ensures { result ≡ word_equal width a b }
{
    (read(width, a) == read(width, b)) as u64
}

/// ~a
pub fn v_not(width: u32, a: u64) -> u64
    requires at_least { 1 ≤ width }
    requires at_most { width ≤ 64 }
    ensures value { result ≡ word_complement width a }
    ensures below { result < 2 ^ width }
{
    ((1u128 << width) - 1 - read(width, a) as u128) as u64
}

/// a & b
pub fn v_and(width: u32, a: u64, b: u64) -> u64
    requires at_least { 1 ≤ width }
    requires at_most { width ≤ 64 }
    ensures value { result ≡ word_and width a b }
    ensures below { result < 2 ^ width }
{
    read(width, a) & read(width, b)
}

/// a ^ b
pub fn v_xor(width: u32, a: u64, b: u64) -> u64
    requires at_least { 1 ≤ width }
    requires at_most { width ≤ 64 }
    ensures value { result ≡ word_exclusive_or width a b }
    ensures below { result < 2 ^ width }
{
    read(width, a) ^ read(width, b)
}

/// a | b
pub fn v_or(width: u32, a: u64, b: u64) -> u64
    requires at_least { 1 ≤ width }
    requires at_most { width ≤ 64 }
    ensures value { result ≡ word_inclusive_or width a b }
    ensures below { result < 2 ^ width }
{
    read(width, a) | read(width, b)
}

/// a << b: 0 where b is the width or more
pub fn v_shl(width: u32, a: u64, b: u64) -> u64
    requires at_least { 1 ≤ width }
    requires at_most { width ≤ 64 }
    ensures value { result ≡ left_shift width a b }
    ensures below { result < 2 ^ width }
{
    if b >= width as u64 {
        return 0;
    }
    (((a as u128) << b) % (1u128 << width)) as u64
}

/// a >> b: 0 where b is the width or more
pub fn v_shr(width: u32, a: u64, b: u64) -> u64
    requires at_least { 1 ≤ width }
    requires at_most { width ≤ 64 }
    ensures value { result ≡ right_shift width a b }
    ensures below { result < 2 ^ width }
{
    if b >= width as u64 {
        return 0;
    }
    read(width, a) >> b
}

/// `$signed(a) >>> b`: copies of the sign alone where b is the width or more
pub fn v_sar(width: u32, a: u64, b: u64) -> u64
    requires at_least { 1 ≤ width }
    requires at_most { width ≤ 64 }
    ensures value { result ≡ arithmetic_shift width a b }
    ensures below { result < 2 ^ width }
{
    let count = if b < width as u64 { b } else { width as u64 };
    residue(width, signed_value(width, read(width, a)) >> count)
}
