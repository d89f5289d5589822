// The operators of C, as a value or none: none exactly where the operation is undefined.
ghost use Rattle.std.specs.Prelude.{◌≡◌, IfSome, Some};
ghost use Rattle.std.specs.Result.{result_ok};
ghost use Rattle.hls_ints.specs.Types.{HasType};
ghost use Rattle.hls_ints.specs.Operators.{negation_of, sum_of, difference_of, product_of, quotient_of, remainder_of, left_shift_of};
ghost use Rattle.hls_ints.specs.Operators.{right_shift_of, complement_of, and_of, exclusive_or_of, inclusive_or_of, less_of, equal_of};

use crate::operators;
use crate::residues::residue;
use crate::types::{CType, wrap};

/// -a
pub fn c_neg(ty: CType, a: i128) -> Option<i128>
    requires { HasType ty a }
    ensures value { result ≡ result_ok (negation_of ty a) }
    ensures range { IfSome result (HasType ty) }
{
    operators::negate(ty, a).ok()
}

/// a + b
pub fn c_add(ty: CType, a: i128, b: i128) -> Option<i128>
    requires left { HasType ty a }
    requires right { HasType ty b }
    ensures value { result ≡ result_ok (sum_of ty a b) }
    ensures range { IfSome result (HasType ty) }
{
    operators::add(ty, a, b).ok()
}

/// a - b
pub fn c_sub(ty: CType, a: i128, b: i128) -> Option<i128>
    requires left { HasType ty a }
    requires right { HasType ty b }
    ensures value { result ≡ result_ok (difference_of ty a b) }
    ensures range { IfSome result (HasType ty) }
{
    operators::subtract(ty, a, b).ok()
}

/// a * b
pub fn c_mul(ty: CType, a: i128, b: i128) -> Option<i128>
    requires left { HasType ty a }
    requires right { HasType ty b }
    ensures value { result ≡ result_ok (product_of ty a b) }
    ensures range { IfSome result (HasType ty) }
{
    operators::multiply(ty, a, b).ok()
}

/// a / b
pub fn c_div(ty: CType, a: i128, b: i128) -> Option<i128>
    requires left { HasType ty a }
    requires right { HasType ty b }
    ensures value { result ≡ result_ok (quotient_of ty a b) }
    ensures range { IfSome result (HasType ty) }
{
    operators::divide(ty, a, b).ok()
}

/// a % b
pub fn c_rem(ty: CType, a: i128, b: i128) -> Option<i128>
    requires left { HasType ty a }
    requires right { HasType ty b }
    ensures value { result ≡ result_ok (remainder_of ty a b) }
    ensures range { IfSome result (HasType ty) }
{
    operators::remainder(ty, a, b).ok()
}

/// a << b, the type being that of a
pub fn c_shl(ty: CType, a: i128, b: i128) -> Option<i128>
    requires { HasType ty a }
    ensures value { result ≡ result_ok (left_shift_of ty a b) }
    ensures range { IfSome result (HasType ty) }
{
    operators::shift_left(ty, a, b).ok()
}

/// a >> b, the type being that of a
pub fn c_shr(ty: CType, a: i128, b: i128) -> Option<i128>
    requires { HasType ty a }
    ensures value { result ≡ result_ok (right_shift_of ty a b) }
    ensures range { IfSome result (HasType ty) }
{
    operators::shift_right(ty, a, b).ok()
}

/// ~a
pub fn c_not(ty: CType, a: i128) -> Option<i128>
    requires { HasType ty a }
    ensures value { result ≡ Some (complement_of ty a) }
    ensures range { IfSome result (HasType ty) }
{
    Some(wrap(ty, -1 - a))
}

/// a & b
pub fn c_and(ty: CType, a: i128, b: i128) -> Option<i128>
    ensures value { result ≡ Some (and_of ty a b) }
    ensures range { IfSome result (HasType ty) }
{
    let bits = residue(ty.bits(), a) & residue(ty.bits(), b);
    Some(wrap(ty, bits as i128))
}

/// a ^ b
pub fn c_xor(ty: CType, a: i128, b: i128) -> Option<i128>
    ensures value { result ≡ Some (exclusive_or_of ty a b) }
    ensures range { IfSome result (HasType ty) }
{
    let bits = residue(ty.bits(), a) ^ residue(ty.bits(), b);
    Some(wrap(ty, bits as i128))
}

/// a | b
pub fn c_or(ty: CType, a: i128, b: i128) -> Option<i128>
    ensures value { result ≡ Some (inclusive_or_of ty a b) }
    ensures range { IfSome result (HasType ty) }
{
    let bits = residue(ty.bits(), a) | residue(ty.bits(), b);
    Some(wrap(ty, bits as i128))
}

/// a < b, of two values of the type: the int 1 or 0
pub fn c_less(ty: CType, a: i128, b: i128) -> Option<i128>
    requires left { HasType ty a }
    requires right { HasType ty b }
    ensures { result ≡ Some (less_of a b) }
{
    Some((a < b) as i128)
}

/// a == b, of two values of the type: the int 1 or 0
pub fn c_equal(ty: CType, a: i128, b: i128) -> Option<i128>
    requires left { HasType ty a }
    requires right { HasType ty b }
    ensures { result ≡ Some (equal_of a b) }
{
    Some((a == b) as i128)
}
