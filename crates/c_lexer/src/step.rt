// One step of the lexer: the piece at the front of what is left of the text.

ghost use Rattle.std.specs.Prelude.{◌≡◌, ◌∷◌, ◌++◌, [], length, None, Some, OnOk, IfOk, IfErr};
ghost use Rattle.std.specs.List.{list_any};
ghost use Rattle.std.specs.Str.{bytes_eq};
ghost use Rattle.c_lexer.specs.Meaning as meaning;
ghost use Rattle.c_lexer.specs.Contexts.{state_of};
ghost use Rattle.c_lexer.specs.Texts as texts;
ghost use Rattle.c_lexer.specs.Stepping as spec;

use crate::fault::{LexFault, MAX_NAME_LENGTH, MAX_TOKENS, TextLimit};
use crate::lexeme::{Class, behind, front, lexeme_at};
use crate::meaning::{Action, Awaits, Context, Effect, Mode};
use c_token::{Keyword, Kind, Token};
use sqlite_items::Items;
use std::alloc::Global;

/// The place of a fault before what is left of the text, which stands at the offset.
#[tactic(auto, unfolding(crate::specs::Texts::fault_place))]
pub(crate) fn fault_place(mode: Mode, at: usize, rest: &[u8]) -> usize
    ensures { result ≡ texts.fault_place mode at rest.now }
{
    match mode {
        Mode::Directive(hash, _) if !rest.starts_with(b"//") && !rest.starts_with(b"/*") => hash,
        _ => at,
    }
}

/// Whether a text may end here.
#[tactic(auto, unfolding(crate::specs::Texts::may_end))]
pub(crate) fn may_end(mode: Mode) -> bool
    ensures { result ≡ texts.may_end mode }
{
    matches!(
        mode,
        Mode::LineStart | Mode::InLine | Mode::Directive(_, Awaits::LineEnd)
    )
}

/// The limit that a token behind these is the first to pass, and its count.
fn token_limit(tokens: &[Token], class: Class, word: &[u8]) -> Option<(TextLimit, usize)>
    ensures { result ≡ texts.token_limit (length tokens.now) class word.now }
{
    if tokens.len() >= MAX_TOKENS {
        return Some((TextLimit::Tokens, tokens.len() + 1));
    }
    match class {
        Class::Word if word.len() > MAX_NAME_LENGTH && Keyword::from_spelling(word).is_none() => {
            Some((TextLimit::NameLength, word.len()))
        }
        _ => None,
    }
}

/// Adds the token, unless it passes a limit.
fn push_token(
    tokens: &mut Items<Token>,
    at: usize,
    class: Class,
    word: &[u8],
    kind: Kind,
) -> Result<(), LexFault>
    ensures within { OnOk result (texts.token_limit (length tokens.old) class word.now ≡ None) }
    ensures added { OnOk result (tokens.new ≡ tokens.old ++ record { kind = kind; offset = at } ∷ []) }
    ensures fails { IfErr result (spec.TokenFails at class word.now (length tokens.old)) }
{
    if let Some((limit, count)) = token_limit(tokens.as_slice(), class, word) {
        return Err(LexFault::Limit {
            limit,
            count,
            offset: at,
        });
    }
    tokens.push(Token { kind, offset: at })?;
    Ok(())
}

/// Takes the piece of this effect.
fn take<'t>(
    context: &mut Context<'t>,
    tokens: &mut Items<Token>,
    at: usize,
    class: Class,
    word: &'t [u8],
    effect: Effect,
) -> Result<(), LexFault>
    requires { spec.IsFresh effect word.now (state_of context.old) }
    ensures takes { OnOk result (spec.Takes at (spec.piece_of class word.now effect) (state_of context.old) tokens.old (state_of context.new) tokens.new) }
    ensures fails { IfErr result (spec.TakeFails at (spec.piece_of class word.now effect) tokens.old) }
{
    let Effect { mode, action } = effect;
    match action {
        Action::Nothing => context.turn(mode),
        Action::Token(kind) => {
            push_token(tokens, at, class, word, kind)?;
            context.turn(mode);
        }
        Action::Name => context.name(mode, word)?,
        Action::Value(constant) => context.define(mode, constant)?,
    }
    Ok(())
}

/// Takes the piece at the front of what is left of the text, and answers what is left then.
#[tactic(auto, unfolding(crate::specs::Stepping::next_piece))]
pub(crate) fn step<'t>(
    alloc: Global,
    context: &mut Context<'t>,
    tokens: &mut Items<Token>,
    at: usize,
    rest: &'t [u8],
) -> Result<&'t [u8], LexFault>
    ensures steps { IfOk result (λ more. spec.Steps at rest.now (state_of context.old) tokens.old (state_of context.new) tokens.new more.now) }
    ensures fails { IfErr result (spec.StepFails at rest.now (state_of context.old) tokens.old) }
{
    let bad = LexFault::Bad {
        offset: fault_place(context.mode, at, rest),
    };
    let Some((class, len)) = lexeme_at(context.awaits_header(), rest) else {
        return Err(bad);
    };
    let word = front(rest, len);
    let Some(effect) = context.effect_of(alloc, at, class, word)? else {
        return Err(bad);
    };
    match take(context, tokens, at, class, word, effect) {
        Ok(()) => Ok(behind(rest, len)),
        Err(fault) => Err(fault),
    }
}
