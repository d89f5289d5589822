// Lexemes: tokens, blanks, comments and the parts of a directive, each with its length.

ghost use Rattle.std.specs.Prelude.{◌≡◌, ◌≤◌, ◌+◌, length, take, drop, false, option_map};
ghost use Rattle.c_lexer.specs.Lexemes as spec;
ghost use Rattle.c_lexer.specs.Finding as finding;

use c_token::{Constant, Punctuator};

/// What a lexeme is, by its first byte, or by two where it begins with a slash.
#[derive(Clone, Copy)]
pub enum Class {
    /// A space, tab or carriage return.
    Blank,
    LineFeed,
    /// From `//` up to the line feed.
    LineComment,
    /// From `/*` to the first `*/`.
    BlockComment,
    /// A name or a reserved word.
    Word,
    /// An integer constant, if it is spelled well.
    Number,
    /// A character constant.
    Character,
    /// A string literal.
    Text,
    /// `#`
    Hash,
    /// What an include directive names, up to the byte that closes it.
    Header(u8),
    Mark(Punctuator),
}

/// Which bytes go on.
#[derive(Clone, Copy)]
pub enum Run {
    Word,
    Number,
    /// A comment up to the line feed.
    Line,
    /// A comment up to `*/`.
    Block,
    /// What an include directive names, up to this byte.
    Header(u8),
}

fn is_letter(b: u8) -> bool
    ensures { result ≡ spec.is_letter b }
{
    b.is_ascii_alphabetic() || b == b'_'
}

/// Whether a backslash before the end of a line begins here.
fn is_splice(z: &[u8]) -> bool
    ensures { result ≡ spec.is_splice z.now }
{
    z.starts_with(b"\\\n") || z.starts_with(b"\\\r\n")
}

fn is_printable(b: u8) -> bool
    ensures { result ≡ spec.is_printable b }
{
    (b' '..=b'~').contains(&b)
}

/// Whether the run goes on with the first byte.
#[tactic(auto, unfolding(crate::specs::Lexemes::goes_on))]
fn goes_on(run: Run, z: &[u8]) -> bool
    ensures { result ≡ spec.goes_on run z.now }
{
    let [b, ..] = z else {
        return false;
    };
    match run {
        Run::Word => is_letter(*b) || b.is_ascii_digit(),
        Run::Number => is_letter(*b) || b.is_ascii_digit() || *b == b'.',
        Run::Line => *b != b'\n' && !is_splice(z),
        Run::Block => !z.starts_with(b"*/") && !is_splice(z),
        Run::Header(close) => *b != close && (*b == b'\t' || is_printable(*b)),
    }
}

/// How many bytes the longest run at the front has.
#[tactic(auto, unfolding(crate::specs::Finding::run_len))]
fn run_len(run: Run, z: &[u8]) -> usize
    ensures value { result ≡ finding.run_len run z.now }
    ensures within { result ≤ length z.now }
{
    let mut rest = z;
    while let [_, more @ ..] = rest {
        if !goes_on(run, rest) {
            break;
        }
        rest = more;
    }
    z.len() - rest.len()
}

/// What the text begins with, where an include directive awaits what it names, or doesn't.
#[tactic(auto, unfolding(crate::specs::Lexemes::class_at))]
fn class_at(awaits_header: bool, z: &[u8]) -> Option<Class>
    ensures { result ≡ spec.class_at awaits_header z.now }
{
    let [b, ..] = z else {
        return None;
    };
    match *b {
        b' ' | b'\t' | b'\r' => Some(Class::Blank),
        b'\n' => Some(Class::LineFeed),
        b if is_letter(b) => Some(Class::Word),
        b if b.is_ascii_digit() => Some(Class::Number),
        b'\'' => Some(Class::Character),
        b'"' if awaits_header => Some(Class::Header(b'"')),
        b'"' => Some(Class::Text),
        b'<' if awaits_header => Some(Class::Header(b'>')),
        b'#' => Some(Class::Hash),
        b'/' if z.starts_with(b"//") => Some(Class::LineComment),
        b'/' if z.starts_with(b"/*") => Some(Class::BlockComment),
        _ => Punctuator::longest_at(z).map(Class::Mark),
    }
}

fn line_comment_len(z: &[u8]) -> Option<usize>
    ensures { result ≡ finding.line_comment_len z.now }
{
    let len = run_len(Run::Line, z);
    let (_, rest) = z.split_at(len);
    if is_splice(rest) { None } else { Some(len) }
}

fn block_comment_len(z: &[u8]) -> Option<usize>
    ensures { result ≡ option_map (λ n. n + 2) (finding.block_len (drop 2 z.now)) }
{
    let inside = behind(z, 2);
    let len = run_len(Run::Block, inside);
    let (_, rest) = inside.split_at(len);
    if rest.starts_with(b"*/") {
        Some(len + 4)
    } else {
        None
    }
}

/// The first `len` bytes, or all where there are fewer.
pub(crate) fn front(z: &[u8], len: usize) -> &[u8]
    ensures { result.now ≡ take len z.now }
{
    z.get(..len).unwrap_or(z)
}

fn character_len(z: &[u8]) -> Option<usize>
    ensures { result ≡ finding.character_len z.now }
{
    let len = if z.get(1) == Some(&b'\\') { 4 } else { 3 };
    Constant::from_character(front(z, len))?;
    Some(len)
}

/// How many bytes a string literal has, of which this stands behind its first quote.
#[tactic(auto, unfolding(crate::specs::Finding::text_len))]
fn text_len(z: &[u8]) -> Option<usize>
    ensures { result ≡ finding.text_len 1 false z.now }
{
    let mut rest = z;
    let mut len = 1;
    let mut escaped = false;
    while let [b, more @ ..] = rest {
        if *b == b'"' && !escaped {
            return Some(len + 1);
        }
        if !is_printable(*b) {
            return None;
        }
        len += 1;
        escaped = *b == b'\\' && !escaped;
        rest = more;
    }
    None
}

/// What an include directive names, with the bytes that open and close it.
fn header_len(close: u8, z: &[u8]) -> Option<usize>
    ensures { result ≡ option_map (λ n. n + 1) (finding.header_len close (drop 1 z.now)) }
{
    let inside = behind(z, 1);
    let len = run_len(Run::Header(close), inside);
    let (_, rest) = inside.split_at(len);
    if len > 0 && rest.first() == Some(&close) {
        Some(len + 2)
    } else {
        None
    }
}

/// All but the first `n` bytes.
pub(crate) fn behind(z: &[u8], n: usize) -> &[u8]
    ensures { result.now ≡ drop n z.now }
{
    z.get(n..).unwrap_or(&[])
}

/// How many bytes the lexeme of the class has at the front of the text.
fn len_of(class: Class, z: &[u8]) -> Option<usize>
    ensures { result ≡ finding.len_of class z.now }
{
    match class {
        Class::Blank | Class::LineFeed | Class::Hash => Some(1),
        Class::Word => Some(run_len(Run::Word, z)),
        Class::Number => Some(run_len(Run::Number, z)),
        Class::LineComment => line_comment_len(z),
        Class::BlockComment => block_comment_len(z),
        Class::Character => character_len(z),
        Class::Text => text_len(behind(z, 1)),
        Class::Header(close) => header_len(close, z),
        Class::Mark(mark) => Some(mark.spelling().len()),
    }
}

/// The class of the lexeme at the front of the text, and its length.
#[tactic(auto, unfolding(crate::specs::Finding::lexeme_at))]
pub(crate) fn lexeme_at(awaits_header: bool, z: &[u8]) -> Option<(Class, usize)>
    ensures { result ≡ finding.lexeme_at awaits_header z.now }
{
    let class = class_at(awaits_header, z)?;
    let len = len_of(class, z)?;
    Some((class, len))
}
