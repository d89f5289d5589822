//! A parser from the top down: the tree of a C text's tokens, or the token at which they depart from the grammar or
//! nest too deep.
//! `rt plant`: of 15 wrong bodies in 2 functions 14 are refused and 1 could not be judged.
#![tactic(auto)]

mod declarations;

ghost use Rattle.std.specs.Prelude.{◌≡◌, ◌≤◌, ◌+◌, ◌-◌, ℕ, length};
ghost use Rattle.grammar.specs.Sentences.{SentenceWithin, FaultAt, TooDeepAt};
ghost use Rattle.c_tree.specs.declared.declaration.TranslationUnit as tree;
ghost use Rattle.c_tree.specs.Declarations.{unit};
ghost use Rattle.c_parser.specs.Parsed as spec;
ghost use Rattle.c_parser.specs.declared.ParseError.TheVariants.{Syntax, Nesting};

use c_cursor::Cursor;
use c_token::Token;
use c_tree::TranslationUnit;
use declarations::unit;
use grammar::Fault;
use std::alloc::Global;
use thiserror::Error;

/// How deep a token may be nested.
pub const NESTING_LIMIT: usize = 64;

/// Why tokens have no tree. The tokens are counted from 0, and the offset is that of the token in the text; it is 0 where
/// there is no such token, since the tokens end without the end of a text.
#[derive(Clone, Copy, Debug, Error)]
pub enum ParseError {
    /// Some sentence starts with the tokens before this one, and none with this one too. At the number of tokens where
    /// they end too early.
    #[error("no sentence has the token at byte {offset}")]
    Syntax {
        token: usize,
        offset: usize,
    },
    /// This token is the first one that is nested deeper than the limit; the count is its nesting.
    #[error("the token at byte {offset} is nested {count} deep")]
    Nesting {
        token: usize,
        count: usize,
        offset: usize,
    },
    /// Memory ran out.
    #[error("out of memory")]
    Memory,
}

/// The place of a token in the text.
fn offset_at(tokens: &[Token], k: usize) -> usize
    ensures { result ≡ spec.offset_at tokens.now k }
{
    match tokens.get(k) {
        Some(token) => token.offset,
        None => 0,
    }
}

/// The syntax fault where so many tokens are left.
fn syntax(tokens: &[Token], left: usize) -> ParseError
    requires { left ≤ length tokens.now }
    ensures { result ≡ Syntax (length tokens.now - left) (spec.offset_at tokens.now (length tokens.now - left)) }
{
    let token = tokens.len() - left;
    ParseError::Syntax {
        token,
        offset: offset_at(tokens, token),
    }
}

/// The fault of a token so many levels above the limit where so many tokens are left.
fn nesting(tokens: &[Token], left: usize, above: u8) -> ParseError
    requires { left ≤ length tokens.now }
    ensures { result ≡ Nesting (length tokens.now - left) (64 + above) (spec.offset_at tokens.now (length tokens.now - left)) }
{
    let token = tokens.len() - left;
    ParseError::Nesting {
        token,
        count: NESTING_LIMIT + above as usize,
        offset: offset_at(tokens, token),
    }
}

/// The tree of the tokens, the end of the text among them.
pub fn parse(alloc: Global, tokens: &[Token]) -> Result<TranslationUnit, ParseError>
    ensures answer { spec.Parsed tokens.now result }
    ensures every { (v : tree.TranslationUnit) → SentenceWithin unit 64 tokens.now v → spec.Finds v result }
    ensures syntax { (k : ℕ) → FaultAt unit 64 tokens.now k → spec.AnswersOnly (Syntax k (spec.offset_at tokens.now k)) result }
    ensures nesting { (k count : ℕ) → TooDeepAt unit 64 tokens.now k count → spec.AnswersOnly (Nesting k count (spec.offset_at tokens.now k)) result }
{
    let mut cursor = Cursor::new(tokens);
    match unit(alloc, &mut cursor, NESTING_LIMIT + 1) {
        Ok(tree) => {
            let left = cursor.left();
            if left == 0 {
                Ok(tree)
            } else {
                Err(syntax(tokens, left))
            }
        }
        Err(Fault::Syntax) => Err(syntax(tokens, cursor.left())),
        Err(Fault::Nesting(above)) => Err(nesting(tokens, cursor.left(), above)),
        Err(Fault::Memory) => Err(ParseError::Memory),
    }
}
