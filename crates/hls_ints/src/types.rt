// The integer types of C and the conversions between them.
ghost use Rattle.std.specs.Prelude.{◌≡◌, ◌≤◌};
ghost use Rattle.hls_ints.specs.Types.{width_of, promoted, usual_type, wrapped, HasType};

use crate::residues::{residue, signed_value};
use std::marker::Model;

/// An integer type of C: a width of 8, 16, 32 or 64 bits, signed or not.
#[derive(Clone, Copy, PartialEq, Eq, Debug)]
pub struct CType {
    pub width: u32,
    pub signed: bool,
}

impl Model for CType {
    ghost use Rattle.std.proofs.Common.{ap};
    ghost use Rattle.hls_ints.specs.Types.{IntegerType, bits, width_at, IsWidth};

    ghost Value = { IntegerType };

    ghost view = { λ ty. record { width = width_at ty.width; signed = ty.signed } };

    ghost invariant = { λ ty. IsWidth ty.width };

    ghost inverse = { λ ty. record { width = bits ty.width; signed = ty.signed } };

    ghost inverse_ok = { λ ty known. ap (λ w. record { width = w; signed = ty.signed }) known };
}

impl CType {
    /// `int`, of 32 bits.
    pub const INT: CType = CType {
        width: 32,
        signed: true,
    };

    /// `unsigned int`, of 32 bits.
    pub const UNSIGNED_INT: CType = CType {
        width: 32,
        signed: false,
    };

    /// `long`, of 64 bits.
    pub const LONG: CType = CType {
        width: 64,
        signed: true,
    };

    /// `unsigned long`, of 64 bits.
    pub const UNSIGNED_LONG: CType = CType {
        width: 64,
        signed: false,
    };

    /// The width in bits.
    pub fn bits(self) -> u32
        ensures value { result ≡ width_of self }
        ensures at_least { 8 ≤ result }
        ensures at_most { result ≤ 64 }
    {
        self.width
    }

    /// Whether the type has negative values.
    pub fn is_signed(self) -> bool
        ensures { result ≡ self.signed }
    {
        self.signed
    }
}

/// The value converted to the type: the value of the type that is the same modulo 2 to the width (C99 6.3.1.3).
#[tactic(auto, unfolding(crate::specs::Types::wrapped))]
pub fn wrap(ty: CType, v: i128) -> i128
    ensures value { result ≡ wrapped ty v }
    ensures range { HasType ty result }
{
    let bits = residue(ty.bits(), v);
    if ty.is_signed() {
        signed_value(ty.bits(), bits)
    } else {
        bits as i128
    }
}

/// The type that an operand of the type is promoted to (C99 6.3.1.1).
pub fn promote(ty: CType) -> CType
    ensures { result ≡ promoted ty }
{
    if ty.bits() < 32 { CType::INT } else { ty }
}

/// The type in which an operator works on operands of the two types: promoted, the wider one, and of two of one
/// width the unsigned one (C99 6.3.1.8).
pub fn usual(a: CType, b: CType) -> CType
    ensures { result ≡ usual_type a b }
{
    let left = promote(a);
    let right = promote(b);
    if left.bits() < right.bits() {
        right
    } else if right.bits() < left.bits() || !left.is_signed() {
        left
    } else {
        right
    }
}
