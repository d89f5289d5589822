// Constants (C99 6.4.4) and their types.

ghost use Rattle.std.specs.Prelude.{◌≡◌, ◌≤◌, ◌+◌, ◌*◌, nat_le, length};
ghost use Rattle.std.specs.List.{find, prefix_len};
ghost use Rattle.c_token.specs.Constants as spec;

/// A type that a constant may have.
#[derive(Clone, Copy)]
pub enum ConstantType {
    /// `int`, of 32 bits.
    Int,
    /// `unsigned int`, of 32 bits.
    Unsigned,
    /// `long int`, of 64 bits; `long long int` is the same type.
    Long,
    /// `unsigned long int`, of 64 bits.
    UnsignedLong,
}

/// A constant of a text: an integer, or a character, whose type is int.
#[derive(Clone, Copy)]
pub enum Constant {
    /// Its value, which is below 2 to the 64, and its type, which holds the value.
    Typed(u64, ConstantType),
    /// No type that its spelling allows holds its value.
    TooLarge,
}

/// The base of an integer constant.
#[derive(Clone, Copy)]
pub enum Base {
    Decimal,
    /// Behind a first digit 0.
    Octal,
    /// Behind `0x` or `0X`.
    Hexadecimal,
}

/// What stands behind the digits of an integer constant.
#[derive(Clone, Copy)]
pub struct Suffix {
    /// `u` or `U`
    pub is_unsigned: bool,
    /// `l`, `L`, `ll` or `LL`
    pub is_long: bool,
}

impl ConstantType {
    /// The largest value of the type.
    pub fn maximum(self) -> u64
        ensures { result ≡ spec.maximum self }
    {
        match self {
            ConstantType::Int => 0x7fff_ffff,
            ConstantType::Unsigned => 0xffff_ffff,
            ConstantType::Long => 0x7fff_ffff_ffff_ffff,
            ConstantType::UnsignedLong => 0xffff_ffff_ffff_ffff,
        }
    }
}

impl Base {
    fn radix(self) -> u64
        ensures { result ≡ spec.radix self }
    {
        match self {
            Base::Decimal => 10,
            Base::Octal => 8,
            Base::Hexadecimal => 16,
        }
    }

    fn is_digit(self, b: u8) -> bool
        ensures { result ≡ spec.is_digit self b }
    {
        match self {
            Base::Decimal => b.is_ascii_digit(),
            Base::Octal => (b'0'..=b'7').contains(&b),
            Base::Hexadecimal => b.is_ascii_digit() || matches!(b, b'a'..=b'f' | b'A'..=b'F'),
        }
    }
}

/// What a digit of any base counts.
fn digit_value(b: u8) -> u8
    ensures { result ≡ spec.digit_value b }
{
    match b {
        b'a'..=b'f' => b - b'a' + 10,
        b'A'..=b'F' => b - b'A' + 10,
        _ => b.saturating_sub(b'0'),
    }
}

/// The number with one more digit, where it is below 2 to the 64.
fn with_digit(base: Base, n: u64, b: u8) -> Option<u64>
    ensures { result ≡ spec.below_two_to_64 (n * spec.radix base + spec.digit_value b) }
{
    let next = u128::from(n) * u128::from(base.radix()) + u128::from(digit_value(b));
    if next < 1 << 64 {
        Some(next as u64)
    } else {
        None
    }
}

/// The number that the digits spell, where it is below 2 to the 64.
#[tactic(auto, unfolding(crate::specs::Constants::number_from))]
fn number(base: Base, mut digits: &[u8]) -> Option<u64>
    ensures { result ≡ spec.below_two_to_64 (spec.number_from base 0 digits.entry.now) }
{
    let mut n: u64 = 0;
    while let [b, more @ ..] = digits {
        let Some(next) = with_digit(base, n, *b) else {
            return None;
        };
        n = next;
        digits = more;
    }
    Some(n)
}

fn is_unsigned_suffix(z: &[u8]) -> bool
    ensures { result ≡ spec.is_unsigned_suffix z.now }
{
    z == b"u".as_slice() || z == b"U".as_slice()
}

fn is_long_suffix(z: &[u8]) -> bool
    ensures { result ≡ spec.is_long_suffix z.now }
{
    z == b"l".as_slice() || z == b"L".as_slice() || z == b"ll".as_slice() || z == b"LL".as_slice()
}

/// Both suffixes, in either order.
fn is_unsigned_long_suffix(z: &[u8]) -> bool
    ensures { result ≡ spec.is_unsigned_long_suffix z.now }
{
    if z.is_empty() {
        return false;
    }
    let (first, more) = z.split_at(1);
    let (front, last) = z.split_at(z.len() - 1);
    (is_unsigned_suffix(first) && is_long_suffix(more))
        || (is_long_suffix(front) && is_unsigned_suffix(last))
}

impl Suffix {
    /// The suffix that is spelled so, which may be empty.
    #[tactic(auto, unfolding(crate::specs::Constants::suffix_of))]
    fn from_spelling(z: &[u8]) -> Option<Suffix>
        ensures { result ≡ spec.suffix_of z.now }
    {
        let (is_unsigned, is_long) = if z.is_empty() {
            (false, false)
        } else if is_unsigned_suffix(z) {
            (true, false)
        } else if is_long_suffix(z) {
            (false, true)
        } else if is_unsigned_long_suffix(z) {
            (true, true)
        } else {
            return None;
        };
        Some(Suffix {
            is_unsigned,
            is_long,
        })
    }
}

/// The types that a constant may have, in the order in which they are tried.
fn types_of(base: Base, suffix: Suffix) -> &'static [ConstantType]
    ensures { result.now ≡ spec.types_of base suffix }
{
    match (base, suffix.is_unsigned, suffix.is_long) {
        (Base::Decimal, false, false) => &[ConstantType::Int, ConstantType::Long],
        (_, false, false) => &[
            ConstantType::Int,
            ConstantType::Unsigned,
            ConstantType::Long,
            ConstantType::UnsignedLong,
        ],
        (_, true, false) => &[ConstantType::Unsigned, ConstantType::UnsignedLong],
        (Base::Decimal, false, true) => &[ConstantType::Long],
        (_, false, true) => &[ConstantType::Long, ConstantType::UnsignedLong],
        (_, true, true) => &[ConstantType::UnsignedLong],
    }
}

/// The first of the types that holds the value.
fn first_type(types: &[ConstantType], value: u64) -> Option<ConstantType>
    ensures { result ≡ find (λ t. nat_le value (spec.maximum t)) types.now }
{
    types.iter().copied().find(|t| value <= t.maximum())
}

/// The value with the first of the types that holds it.
#[tactic(auto, unfolding(crate::specs::Constants::typed))]
fn typed(types: &[ConstantType], value: Option<u64>) -> Constant
    ensures { result ≡ spec.typed_value types.now value }
{
    let Some(value) = value else {
        return Constant::TooLarge;
    };
    match first_type(types, value) {
        Some(t) => Constant::Typed(value, t),
        None => Constant::TooLarge,
    }
}

/// How many digits of the base stand at the front.
fn digit_count(base: Base, body: &[u8]) -> usize
    ensures count { result ≡ prefix_len (spec.is_digit base) body.now }
    ensures within { result ≤ length body.now }
{
    body.iter().take_while(|b| base.is_digit(**b)).count()
}

/// The constant of the base: at least one of its digits, and a suffix.
#[tactic(auto, unfolding(crate::specs::Constants::integer_by), using(crate::proofs::Numbers::typed_below))]
fn integer_by(base: Base, body: &[u8]) -> Option<Constant>
    ensures { result ≡ spec.integer_by base body.now }
{
    let len = digit_count(base, body);
    if len == 0 {
        return None;
    }
    let (digits, suffix) = body.split_at(len);
    let suffix = Suffix::from_spelling(suffix)?;
    Some(typed(types_of(base, suffix), number(base, digits)))
}

/// What the byte behind a backslash stands for.
#[tactic(auto, unfolding(crate::specs::Constants::escape_value))]
fn escape_value(b: u8) -> Option<u8>
    ensures { result ≡ spec.escape_value b }
{
    match b {
        b'n' => Some(b'\n'),
        b't' => Some(b'\t'),
        b'r' => Some(b'\r'),
        b'0' => Some(0),
        b'\\' | b'\'' | b'"' => Some(b),
        _ => None,
    }
}

impl Constant {
    /// The character constant that the word spells, from quote to quote; its type is int. None where it spells none.
    #[tactic(auto, unfolding(crate::specs::Constants::character_of))]
    pub fn from_character(word: &[u8]) -> Option<Constant>
        ensures { result ≡ spec.character_of word.now }
    {
        let value = match word {
            [b'\'', b'\\', escape, b'\''] => escape_value(*escape)?,
            // 0x20 to 0x7E, but for the quote and the backslash
            [b'\'', b @ b' '..=b'~', b'\''] if *b != b'\'' && *b != b'\\' => *b,
            _ => return None,
        };
        Some(Constant::Typed(u64::from(value), ConstantType::Int))
    }

    /// The integer constant that the word spells: a base, at least one of its digits and a suffix. None where it spells none.
    #[tactic(auto, unfolding(crate::specs::Constants::integer_of))]
    pub fn from_integer(word: &[u8]) -> Option<Constant>
        ensures { result ≡ spec.integer_of word.now }
    {
        if word.starts_with(b"0x") || word.starts_with(b"0X") {
            integer_by(Base::Hexadecimal, word.split_at(2).1)
        } else if word.starts_with(b"0") {
            integer_by(Base::Octal, word)
        } else {
            integer_by(Base::Decimal, word)
        }
    }
}
