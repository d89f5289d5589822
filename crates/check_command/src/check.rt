// The command `check`.

ghost use Rattle.std.specs.Prelude.{◌≡◌, ℕ, List, Ok, IfOk, IfErr};
ghost use Rattle.c_token.specs.declared.token.Token as token;
ghost use Rattle.c_lexer.specs.Texts.{LexesAs};
ghost use Rattle.c_program.specs.Plain.{program_of};
ghost use Rattle.c_accepted.specs.Profile.{IsAccepted, IsRefused};
ghost use Rattle.c_accepted.specs.declared.refusal.Refusal as refusal;
ghost use Rattle.c_profile.specs.declared.text.ProfileError.TheVariants as error;
ghost use Rattle.check_command.specs.Told as spec;

use c_lexer::{LexFault, lex};
use c_profile::{ProfileError, accept};
use c_program::tree::Program;
use c_token::{Kind, Token};
use lockset_check::check::{Checked, check};
use sqlite_items::Items;
use std::alloc::{AllocError, Global};

/// What is told of a text.
#[derive(Drop)]
pub enum Told {
    /// Each global of the program has a discipline; how many globals there are.
    Disciplined { globals: usize },
    /// The place of the name of the first global that has none, where it is accessed first, and the name. Or the place of the first call by
    /// which a start routine may create or join a thread, and an empty name.
    Doubt { offset: usize, name: String },
}

/// The tokens of a text that has no fault.
fn tokens_of(alloc: Global, text: &[u8]) -> Result<Items<Token>, AllocError>
    requires { (ts : List token.Token) × LexesAs text.now (Ok ts) }
    ensures { IfOk result (λ ts. LexesAs text.now (Ok ts)) }
{
    match lex(alloc, text) {
        Ok(tokens) => Ok(tokens),
        Err(LexFault::Memory) => Err(AllocError),
        Err(LexFault::Bad { .. }) => unreachable!(),
        Err(LexFault::Limit { .. }) => unreachable!(),
    }
}

/// Whether a token, at an offset or behind it, is the name.
fn is_named(token: &Token, from: usize, name: &str) -> bool
    ensures { result ≡ spec.is_named from name.now token.now }
{
    match &token.kind {
        Kind::Name(bytes) => bytes.as_slice() == name.as_bytes() && from <= token.offset,
        _ => false,
    }
}

/// The place of the first name at an offset or behind it that is spelled so, else the offset.
fn name_place(mut tokens: &[Token], from: usize, name: &str) -> usize
    ensures { result ≡ spec.name_place tokens.entry.now from name.now }
{
    while let [token, more @ ..] = tokens {
        if is_named(token, from, name) {
            return token.offset;
        }
        tokens = more;
    }
    from
}

/// Where a doubt is told that a step gives.
fn told_at(tokens: &[Token], step: usize, name: &str) -> usize
    ensures { result ≡ spec.told_at tokens.now step name.now }
{
    if name.is_empty() {
        step
    } else {
        name_place(tokens, step, name)
    }
}

/// What is told of the program of a text.
fn told_of(alloc: Global, text: &[u8], program: &Program) -> Result<Told, AllocError>
    requires { (w : ℕ) × IsAccepted text.now (program_of program.now) w }
    ensures { IfOk result (spec.IsTold text.now (program_of program.now)) }
{
    match check(alloc, program)? {
        Checked::Disciplined { globals } => Ok(Told::Disciplined { globals }),
        Checked::Doubt { offset, name } => {
            let tokens = tokens_of(alloc, text)?;
            let offset = told_at(tokens.as_slice(), offset as usize, name.as_str());
            Ok(Told::Doubt { offset, name })
        }
    }
}

/// What is told of the program that a text spells, or the first reason why the text is refused.
pub fn check_text(alloc: Global, text: &[u8]) -> Result<Told, ProfileError>
    ensures ok { IfOk result (spec.IsToldOf text.now) }
    ensures refused { IfErr result (λ e. (r : refusal.Refusal) → e ≡ error.Refused r → IsRefused text.now r) }
{
    let accepted = accept(alloc, text)?;
    match told_of(alloc, text, &accepted.program) {
        Ok(told) => Ok(told),
        Err(_) => Err(ProfileError::Memory),
    }
}
