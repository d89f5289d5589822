// The dimensions of objects (C99 6.7.5.2).

ghost use Rattle.std.specs.Prelude.{◌≡◌};
ghost use Rattle.c_rules.specs.Dimensions as spec;

/// How many elements an object has in each of its dimensions, the outermost first; a scalar has none, and an array at most three.
#[derive(Clone, Copy)]
pub enum Dimensions {
    Scalar,
    One(u64),
    Two(u64, u64),
    Three(u64, u64, u64),
}

impl Dimensions {
    /// How many dimensions there are.
    pub fn count(self) -> usize
        ensures { result ≡ spec.count self }
    {
        match self {
            Dimensions::Scalar => 0,
            Dimensions::One(_) => 1,
            Dimensions::Two(_, _) => 2,
            Dimensions::Three(_, _, _) => 3,
        }
    }

    /// Whether there are none.
    pub fn is_scalar(self) -> bool
        ensures { result ≡ spec.is_scalar self }
    {
        matches!(self, Dimensions::Scalar)
    }

    /// The number of elements, which stops at 2^64 - 1; a scalar is one.
    pub fn elements(self) -> u64
        ensures { result ≡ spec.elements self }
    {
        match self {
            Dimensions::Scalar => 1,
            Dimensions::One(length) => length,
            Dimensions::Two(outer, inner) => outer.saturating_mul(inner),
            Dimensions::Three(outer, middle, inner) => {
                outer.saturating_mul(middle).saturating_mul(inner)
            }
        }
    }

    /// The length of the outermost dimension.
    pub fn outermost(self) -> u64
        ensures { result ≡ spec.outermost self }
    {
        match self {
            Dimensions::Scalar => 1,
            Dimensions::One(outer) | Dimensions::Two(outer, _) | Dimensions::Three(outer, _, _) =>
                outer,
        }
    }

    /// The dimensions of an element of the outermost one.
    pub fn inner(self) -> Dimensions
        ensures { result ≡ spec.inner self }
    {
        match self {
            Dimensions::Scalar | Dimensions::One(_) => Dimensions::Scalar,
            Dimensions::Two(_, inner) => Dimensions::One(inner),
            Dimensions::Three(_, middle, inner) => Dimensions::Two(middle, inner),
        }
    }

    /// With one more, the innermost, where there are not three yet.
    pub fn with(self, length: u64) -> Dimensions
        ensures { result ≡ spec.with_length self length }
    {
        match self {
            Dimensions::Scalar => Dimensions::One(length),
            Dimensions::One(outer) => Dimensions::Two(outer, length),
            Dimensions::Two(outer, middle) => Dimensions::Three(outer, middle, length),
            Dimensions::Three(_, _, _) => self,
        }
    }
}
