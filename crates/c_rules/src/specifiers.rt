// The types that words spell (C99 6.7.2).

ghost use Rattle.std.specs.Prelude.{◌≡◌};
ghost use Rattle.c_rules.specs.Specifiers as spec;

use c_tree::{Specifiers, TypeWord};
use hls_ints::CType;

/// An integer type of the profile; `long long` is `long` (C99 6.2.5).
#[derive(Clone, Copy, PartialEq, Eq)]
pub enum BasicType {
    /// Of 8 bits; `char` is signed.
    Char,
    UnsignedChar,
    /// Of 16 bits.
    Short,
    UnsignedShort,
    /// Of 32 bits.
    Int,
    UnsignedInt,
    /// Of 64 bits.
    Long,
    UnsignedLong,
}

impl BasicType {
    /// Its width and signedness.
    pub fn c_type(self) -> CType
        ensures { result ≡ spec.c_type self }
    {
        match self {
            BasicType::Char => CType {
                width: 8,
                signed: true,
            },
            BasicType::UnsignedChar => CType {
                width: 8,
                signed: false,
            },
            BasicType::Short => CType {
                width: 16,
                signed: true,
            },
            BasicType::UnsignedShort => CType {
                width: 16,
                signed: false,
            },
            BasicType::Int => CType::INT,
            BasicType::UnsignedInt => CType::UNSIGNED_INT,
            BasicType::Long => CType::LONG,
            BasicType::UnsignedLong => CType::UNSIGNED_LONG,
        }
    }

    /// The unsigned type of its width.
    fn unsigned(self) -> BasicType
        ensures { result ≡ spec.unsigned self }
    {
        match self {
            BasicType::Char | BasicType::UnsignedChar => BasicType::UnsignedChar,
            BasicType::Short | BasicType::UnsignedShort => BasicType::UnsignedShort,
            BasicType::Int | BasicType::UnsignedInt => BasicType::UnsignedInt,
            BasicType::Long | BasicType::UnsignedLong => BasicType::UnsignedLong,
        }
    }
}

/// What a list of words spells.
#[derive(Clone, Copy)]
pub enum BaseType {
    Void,
    Integer(BasicType),
    /// `pthread_t`
    Thread,
    /// `pthread_mutex_t`
    Mutex,
    /// `pthread_barrier_t`
    Barrier,
    /// No type of the profile.
    Unlisted,
}

/// A list of words: the type, and whether `static` and `const` are among them.
#[derive(Clone, Copy)]
pub struct Spelled {
    pub base: BaseType,
    pub is_static: bool,
    pub is_const: bool,
}

/// How often the word is among the words.
fn count(words: &[TypeWord], word: TypeWord) -> usize
    ensures { result ≡ spec.count words.now word }
{
    words.iter().filter(|w| **w == word).count()
}

fn has(words: &[TypeWord], word: TypeWord) -> bool
    ensures { result ≡ spec.has words.now word }
{
    count(words, word) > 0
}

/// The signed integer type of these words, with a word for the sign or without: `char`, or `short`, `int`, `long`,
/// `long long`, each with an `int` or without, or the sign alone (C99 6.7.2).
fn signed_integer(words: &[TypeWord], has_sign: bool) -> Option<BasicType>
    ensures { result ≡ spec.signed_integer words.now has_sign }
{
    let chars = count(words, TypeWord::Char);
    let shorts = count(words, TypeWord::Short);
    let ints = count(words, TypeWord::Int);
    let longs = count(words, TypeWord::Long);
    if chars == 1 && shorts == 0 && ints == 0 && longs == 0 {
        Some(BasicType::Char)
    } else if chars == 0 && shorts == 1 && ints <= 1 && longs == 0 {
        Some(BasicType::Short)
    } else if chars == 0 && shorts == 0 && ints <= 1 && (longs == 1 || longs == 2) {
        Some(BasicType::Long)
    } else if chars == 0 && shorts == 0 && longs == 0 && (ints == 1 || (ints == 0 && has_sign)) {
        Some(BasicType::Int)
    } else {
        None
    }
}

/// The integer type of these words, with at most one of `signed` and `unsigned`.
fn integer(words: &[TypeWord]) -> Option<BasicType>
    ensures { result ≡ spec.integer words.now }
{
    let signs = count(words, TypeWord::Signed);
    let unsigneds = count(words, TypeWord::Unsigned);
    if signs == 0 && unsigneds == 0 {
        signed_integer(words, false)
    } else if signs == 1 && unsigneds == 0 {
        signed_integer(words, true)
    } else if signs == 0 && unsigneds == 1 {
        signed_integer(words, true).map(BasicType::unsigned)
    } else {
        None
    }
}

/// Whether a word of an integer type is among them.
fn has_integer_word(words: &[TypeWord]) -> bool
    ensures { result ≡ spec.has_integer_word words.now }
{
    has(words, TypeWord::Char)
        || has(words, TypeWord::Short)
        || has(words, TypeWord::Int)
        || has(words, TypeWord::Long)
        || has(words, TypeWord::Signed)
        || has(words, TypeWord::Unsigned)
}

/// Whether `void` or a type of POSIX threads is among them.
fn has_lone_word(words: &[TypeWord]) -> bool
    ensures { result ≡ spec.has_lone_word words.now }
{
    has(words, TypeWord::Void)
        || has(words, TypeWord::ThreadId)
        || has(words, TypeWord::Mutex)
        || has(words, TypeWord::Barrier)
}

/// The type that stands alone: `void`, or one of the three of POSIX threads.
fn lone(words: &[TypeWord]) -> BaseType
    ensures { result ≡ spec.lone words.now }
{
    let voids = count(words, TypeWord::Void);
    let threads = count(words, TypeWord::ThreadId);
    let mutexes = count(words, TypeWord::Mutex);
    let barriers = count(words, TypeWord::Barrier);
    if voids == 1 && threads == 0 && mutexes == 0 && barriers == 0 {
        BaseType::Void
    } else if voids == 0 && threads == 1 && mutexes == 0 && barriers == 0 {
        BaseType::Thread
    } else if voids == 0 && threads == 0 && mutexes == 1 && barriers == 0 {
        BaseType::Mutex
    } else if voids == 0 && threads == 0 && mutexes == 0 && barriers == 1 {
        BaseType::Barrier
    } else {
        BaseType::Unlisted
    }
}

/// The type of the words.
#[tactic(auto, unfolding(crate::specs::Specifiers::base_of))]
fn base_of(words: &[TypeWord]) -> BaseType
    ensures { result ≡ spec.base_of words.now }
{
    if count(words, TypeWord::Static) > 1 {
        BaseType::Unlisted
    } else if has_lone_word(words) {
        if has_integer_word(words) || has(words, TypeWord::Const) {
            BaseType::Unlisted
        } else {
            lone(words)
        }
    } else {
        match integer(words) {
            Some(ty) => BaseType::Integer(ty),
            None => BaseType::Unlisted,
        }
    }
}

/// What the words spell.
pub fn spelled_by(specifiers: &Specifiers) -> Spelled
    ensures { result ≡ spec.spelled_by specifiers.now }
{
    let words = specifiers.words.as_slice();
    Spelled {
        base: base_of(words),
        is_static: has(words, TypeWord::Static),
        is_const: has(words, TypeWord::Const),
    }
}

/// The integer type that the words spell without `static`: of a cast, a local or a parameter.
pub fn plain_integer(specifiers: &Specifiers) -> Option<BasicType>
    ensures { result ≡ spec.plain_integer specifiers.now }
{
    let words = specifiers.words.as_slice();
    match (has(words, TypeWord::Static), base_of(words)) {
        (false, BaseType::Integer(ty)) => Some(ty),
        _ => None,
    }
}

/// Whether the words are `void` alone.
pub fn is_void(specifiers: &Specifiers) -> bool
    ensures { result ≡ spec.is_void specifiers.now.words }
{
    matches!(specifiers.words.as_slice(), [TypeWord::Void])
}
