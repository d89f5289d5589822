// Why an operation of C has no value.

use thiserror::Error;

/// Why an operation on integers is undefined in C.
#[derive(Clone, Copy, PartialEq, Eq, Debug, Error)]
pub enum ArithmeticFault {
    /// A signed result is out of its type's range; so is the quotient of the least value by -1, and its remainder with it.
    #[error("overflow")]
    Overflow,
    /// The divisor is 0.
    #[error("divisor")]
    Divisor,
    /// The count of a shift is negative or at least the width, or a left shift is of a negative value or past the
    /// end of a signed type.
    #[error("shift")]
    Shift,
}
