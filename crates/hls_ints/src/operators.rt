// The operators of C that can be undefined, with the cause.
ghost use Rattle.std.specs.Prelude.{◌≡◌, IfOk, false};
ghost use Rattle.hls_ints.specs.Types.{HasType, width_of, in_signed_range};
ghost use Rattle.hls_ints.specs.Operators.{result_of, negation_of, sum_of, difference_of, product_of, quotient_of, remainder_of, left_shift_of, right_shift_of, is_count};

use crate::fault::ArithmeticFault;
use crate::types::{CType, wrap};

/// Whether -half <= z < half.
fn is_within(half: u128, z: i128) -> bool
    ensures { result ≡ in_signed_range half z }
{
    let magnitude = if z < 0 { -1 - z } else { z };
    (magnitude as u128) < half
}

/// The exact result as a value of the type: the fault where a signed one is out of range.
#[tactic(auto, unfolding(crate::specs::Operators::result_of))]
fn fit(fault: ArithmeticFault, ty: CType, z: i128) -> Result<i128, ArithmeticFault>
    ensures value { result ≡ result_of fault ty z }
    ensures range { IfOk result (HasType ty) }
{
    if !ty.is_signed() {
        return Ok(wrap(ty, z));
    }
    if is_within(1u128 << (ty.bits() - 1), z) {
        Ok(z)
    } else {
        Err(fault)
    }
}

/// -a
pub fn negate(ty: CType, a: i128) -> Result<i128, ArithmeticFault>
    requires { HasType ty a }
    ensures value { result ≡ negation_of ty a }
    ensures range { IfOk result (HasType ty) }
{
    fit(ArithmeticFault::Overflow, ty, -a)
}

/// a + b
pub fn add(ty: CType, a: i128, b: i128) -> Result<i128, ArithmeticFault>
    requires left { HasType ty a }
    requires right { HasType ty b }
    ensures value { result ≡ sum_of ty a b }
    ensures range { IfOk result (HasType ty) }
{
    fit(ArithmeticFault::Overflow, ty, a + b)
}

/// a - b
pub fn subtract(ty: CType, a: i128, b: i128) -> Result<i128, ArithmeticFault>
    requires left { HasType ty a }
    requires right { HasType ty b }
    ensures value { result ≡ difference_of ty a b }
    ensures range { IfOk result (HasType ty) }
{
    fit(ArithmeticFault::Overflow, ty, a - b)
}

/// a * b
pub fn multiply(ty: CType, a: i128, b: i128) -> Result<i128, ArithmeticFault>
    requires left { HasType ty a }
    requires right { HasType ty b }
    ensures value { result ≡ product_of ty a b }
    ensures range { IfOk result (HasType ty) }
{
    if ty.is_signed() {
        fit(ArithmeticFault::Overflow, ty, a * b)
    } else {
        Ok(unsigned_product(ty, a, b))
    }
}

/// The product of two values of an unsigned type: of 64 bits it may not fit an i128.
fn unsigned_product(ty: CType, a: i128, b: i128) -> i128
    requires sign { ty.signed ≡ false }
    requires left { HasType ty a }
    requires right { HasType ty b }
    ensures value { Ok result ≡ product_of ty a b }
    ensures range { HasType ty result }
{
    ((a as u128 * b as u128) % (1u128 << ty.bits())) as i128
}

/// a / b
pub fn divide(ty: CType, a: i128, b: i128) -> Result<i128, ArithmeticFault>
    requires left { HasType ty a }
    requires right { HasType ty b }
    ensures value { result ≡ quotient_of ty a b }
    ensures range { IfOk result (HasType ty) }
{
    if b == 0 {
        return Err(ArithmeticFault::Divisor);
    }
    fit(ArithmeticFault::Overflow, ty, a / b)
}

/// a % b
pub fn remainder(ty: CType, a: i128, b: i128) -> Result<i128, ArithmeticFault>
    requires left { HasType ty a }
    requires right { HasType ty b }
    ensures value { result ≡ remainder_of ty a b }
    ensures range { IfOk result (HasType ty) }
{
    divide(ty, a, b)?;
    Ok(a % b)
}

/// Whether a value of the type may be shifted by the count.
fn is_shift_count(ty: CType, count: i128) -> bool
    ensures { result ≡ is_count (width_of ty) count }
{
    count >= 0 && count < ty.bits() as i128
}

/// a << b
pub fn shift_left(ty: CType, a: i128, b: i128) -> Result<i128, ArithmeticFault>
    requires { HasType ty a }
    ensures value { result ≡ left_shift_of ty a b }
    ensures range { IfOk result (HasType ty) }
{
    if !is_shift_count(ty, b) || a < 0 {
        return Err(ArithmeticFault::Shift);
    }
    fit(ArithmeticFault::Shift, ty, a << b as u32)
}

/// a >> b
pub fn shift_right(ty: CType, a: i128, b: i128) -> Result<i128, ArithmeticFault>
    requires { HasType ty a }
    ensures value { result ≡ right_shift_of ty a b }
    ensures range { IfOk result (HasType ty) }
{
    if is_shift_count(ty, b) {
        Ok(a >> b as u32)
    } else {
        Err(ArithmeticFault::Shift)
    }
}
