// The tokens at the front of a text.

ghost use Rattle.std.specs.Prelude.{◌≡◌, drop, IfOk};
ghost use Rattle.verilog_lexer.specs.Lexed.{IsLexed};

use crate::blanks::behind_blanks;
use crate::front::front_token;
use sqlite_items::Items;
use std::alloc::{AllocError, Global};
use verilog_tree::token::Token;

/// The tokens at the front of a text up to a byte at which none begins, or to the text's end.
#[derive(Drop)]
pub struct Lexed {
    pub tokens: Items<Token>,
    /// The offset at which each token begins.
    pub starts: Items<usize>,
    /// The offset of what stands behind the last of them: of a byte at which no token begins, or the text's length.
    pub end: usize,
    /// Whether the text ends there.
    pub is_whole: bool,
}

/// All but the first `n` bytes.
fn behind(text: &[u8], n: usize) -> &[u8]
    ensures { result.now ≡ drop n text.now }
{
    text.get(n..).unwrap_or(&[])
}

/// The tokens at the front of the text.
#[tactic(auto, using(crate::proofs::NextToken::lexes_more, crate::proofs::NextToken::skip_short, crate::proofs::NextToken::behind_short))]
pub fn lex(alloc: Global, text: &[u8]) -> Result<Lexed, AllocError>
    ensures { IfOk result (IsLexed text.now) }
{
    let mut tokens = Items::new(alloc);
    let mut starts = Items::new(alloc);
    let mut rest = behind_blanks(text);
    'tokens: while !rest.is_empty() {
        let Some((token, len)) = front_token(alloc, rest)? else {
            break;
        };
        tokens.push(token)?;
        starts.push(text.len() - rest.len())?;
        rest = behind_blanks(behind(rest, len));
    }
    Ok(Lexed {
        tokens,
        starts,
        end: text.len() - rest.len(),
        is_whole: rest.is_empty(),
    })
}
