// The token at the front of a text.

ghost use Rattle.std.specs.Prelude.{◌≡◌, take, drop, string_bytes, IfOk};
ghost use Rattle.verilog_lexer.specs.Runs as spec;

use crate::marks::{ALL_MARKS, mark_among, word_of};
use crate::number::number_of;
use crate::runs::{Run, is_letter, quoted_len, run_len};
use std::alloc::{AllocError, Global};
use verilog_tree::name::{Identifier, Quoted};
use verilog_tree::token::Token;

/// The first `len` bytes, or all where there are fewer.
fn front(text: &[u8], len: usize) -> &[u8]
    ensures { result.now ≡ take len text.now }
{
    text.get(..len).unwrap_or(text)
}

/// A copy of the bytes as a text. Bytes that are no text, which names and strings never are, are answered as want of memory.
fn text_of(alloc: Global, bytes: &[u8]) -> Result<String, AllocError>
    ensures { IfOk result (λ s. string_bytes s ≡ bytes.now) }
{
    match std::str::from_utf8(bytes) {
        Ok(text) => String::from_str(alloc, text),
        Err(_) => Err(AllocError),
    }
}

/// The word of the grammar or the name at the front of the text.
#[tactic(auto, using(crate::proofs::ByteRuns::name_valid, crate::proofs::FrontToken::name_taken, crate::proofs::FrontToken::name_token))]
fn name_token(alloc: Global, text: &[u8]) -> Result<(Token, usize), AllocError>
    requires { spec.BeginsName text.now }
    ensures { IfOk result (λ found. spec.IsToken text.now found.0 found.1) }
{
    let len = run_len(Run::Name, text);
    let bytes = front(text, len);
    match word_of(bytes) {
        Some(word) => Ok((Token::Word(word), len)),
        None => {
            let name = text_of(alloc, bytes)?;
            Ok((Token::Name(Identifier::from_string(name)), len))
        }
    }
}

#[tactic(auto, using(crate::proofs::FrontToken::number_token, crate::proofs::FrontToken::no_number))]
fn number_token(text: &[u8]) -> Option<(Token, usize)>
    requires { spec.BeginsDigit text.now }
    ensures { spec.IsFront text.now result }
{
    let len = run_len(Run::Digits, text);
    match number_of(front(text, len)) {
        Some(number) => Some((Token::Number(number), len)),
        None => None,
    }
}

/// The string at the front of the text, by what stands behind its first quote.
#[tactic(auto, using(crate::proofs::FrontToken::quoted_taken, crate::proofs::FrontToken::quoted_token, crate::proofs::FrontToken::no_quoted))]
fn quoted_token(
    alloc: Global,
    text: &[u8],
    behind: &[u8],
) -> Result<Option<(Token, usize)>, AllocError>
    requires begins { spec.BeginsQuote text.now }
    requires behind { behind.now ≡ drop 1 text.now }
    ensures { IfOk result (spec.IsFront text.now) }
{
    match quoted_len(behind) {
        Some(len) => {
            let inside = text_of(alloc, front(behind, len))?;
            Ok(Some((Token::Quoted(Quoted::from_string(inside)), len + 2)))
        }
        None => Ok(None),
    }
}

#[tactic(auto, using(crate::proofs::FrontToken::mark_token, crate::proofs::FrontToken::no_mark))]
fn mark_token(text: &[u8]) -> Option<(Token, usize)>
    requires { spec.BeginsMark text.now }
    ensures { spec.IsFront text.now result }
{
    match mark_among(&ALL_MARKS, text) {
        Some((mark, len)) => Some((Token::Mark(mark), len)),
        None => None,
    }
}

/// The token at the front of the text, and how many bytes it has.
#[tactic(auto, using(crate::proofs::FrontToken::front_steps))]
pub(crate) fn front_token(alloc: Global, text: &[u8]) -> Result<Option<(Token, usize)>, AllocError>
    ensures { IfOk result (spec.IsFront text.now) }
{
    let [b, behind @ ..] = text else {
        return Ok(None);
    };
    if is_letter(*b) {
        Ok(Some(name_token(alloc, text)?))
    } else if b.is_ascii_digit() {
        Ok(number_token(text))
    } else if *b == b'"' {
        quoted_token(alloc, text, behind)
    } else {
        Ok(mark_token(text))
    }
}
