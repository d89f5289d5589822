//! The lexer: the tokens of a C text with their places, or the first fault of the text from left to right.
//! `rt plant`: all 10 wrong bodies in 2 functions are refused.
#![tactic(auto)]

pub mod fault;
pub mod lexeme;
pub mod meaning;
mod names;
mod step;

ghost use Rattle.std.specs.Prelude.{List, Result};
ghost use Rattle.c_token.specs.declared.token.Token as token;
ghost use Rattle.c_lexer.specs.declared.fault.LexFault as fault;
ghost use Rattle.c_lexer.specs.Texts.{AreTokens, LexesAs, Lexed, Finds, FindsTokens};

use crate::meaning::Context;
use crate::step::{fault_place, may_end, step};
use c_token::{Kind, Token};
pub use fault::{LexFault, TextLimit};
use sqlite_items::Items;
use std::alloc::Global;

/// The tokens of the text with the token of its end, or its first fault from left to right.
pub fn lex(alloc: Global, text: &[u8]) -> Result<Items<Token>, LexFault>
    ensures answer { Lexed text.now result }
    ensures tokens { (ts : List token.Token) → AreTokens text.now ts → FindsTokens ts result }
    ensures every { (r : Result (List token.Token) fault.LexFault) → LexesAs text.now r → Finds r result }
{
    let mut context = Context::new(alloc);
    let mut tokens = Items::new(alloc);
    let mut rest = text;
    'pieces: while !rest.is_empty() {
        let at = text.len() - rest.len();
        match step(alloc, &mut context, &mut tokens, at, rest) {
            Ok(more) => rest = more,
            Err(fault) => return Err(fault),
        }
    }
    let end = text.len();
    if !may_end(context.mode) {
        return Err(LexFault::Bad {
            offset: fault_place(context.mode, end, rest),
        });
    }
    tokens.push(Token {
        kind: Kind::End,
        offset: end,
    })?;
    Ok(tokens)
}
