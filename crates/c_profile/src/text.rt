// The texts of the profile.

ghost use Rattle.std.specs.Prelude.{◌≡◌, ◌≤◌, ℕ, List, IfOk, IfErr, Ok, length};
ghost use Rattle.c_token.specs.declared.token.Token as token;
ghost use Rattle.c_lexer.specs.Texts.{LexesAs};
ghost use Rattle.c_program.specs.Plain.{program_of};
ghost use Rattle.c_program.specs.Tree as tree;
ghost use Rattle.c_program.specs.Weight.{thread_functions};
ghost use Rattle.grammar.specs.Sentences.{SentenceWithin};
ghost use Rattle.c_tree.specs.Declarations.{unit};
ghost use Rattle.c_profile.specs.Answers.{AcceptsOnly, RefusesOnly};
ghost use Rattle.c_profile.specs.Stops.{answer_to};
ghost use Rattle.c_accepted.specs.Profile.{IsAccepted, IsPassed, IsRefused, IsTreeOf, IsWithin, limit_of_text};
ghost use Rattle.c_profile.specs.declared.text.ProfileError.TheVariants as error;
ghost use Rattle.c_accepted.specs.declared.refusal.Refusal as refusal;
ghost use Rattle.c_accepted.specs.declared.refusal.Refusal.TheVariants as refusals;

use c_accepted::Refusal;
use c_lexer::{LexFault, TextLimit};
use c_limits::{Limit, Passed, measure};
use c_parser::ParseError;
use c_program::tree::Program;
use c_token::Token;
use c_tree::TranslationUnit;
use c_types::{Fault, ResolveError};
use sqlite_items::Items;
use std::alloc::Global;
use thiserror::Error;

/// The most bytes of a text.
pub const MOST_BYTES: usize = 65_536;

/// A program of the profile.
#[derive(Drop)]
pub struct Accepted {
    pub program: Program,
    /// The functions that threads run: main, and each start routine that a create names, in the order of their definitions.
    pub functions: Vec<usize>,
    /// The weight, which bounds the cycles between two steps of the program. It stops at 1,000,000.
    pub weight: u32,
}

/// Why a text gives no program.
#[derive(Clone, Copy, Debug, PartialEq, Eq, Error)]
pub enum ProfileError {
    #[error("refused")]
    Refused(Refusal),
    #[error("out of memory")]
    Memory,
}

fn limit_of_text(limit: TextLimit) -> Limit
    ensures { result ≡ limit_of_text limit }
{
    match limit {
        TextLimit::Tokens => Limit::Tokens,
        TextLimit::NameLength => Limit::NameLength,
    }
}

/// The tokens of a text, within the limits on tokens.
fn tokens_of(alloc: Global, text: &[u8]) -> Result<Items<Token>, ProfileError>
    requires { length text.now ≤ 65536 }
    ensures ok { IfOk result (λ ts. LexesAs text.now (Ok ts)) }
    ensures refused { IfErr result (λ e. (r : refusal.Refusal) → e ≡ error.Refused r → IsRefused text.now r) }
{
    match c_lexer::lex(alloc, text) {
        Ok(tokens) => Ok(tokens),
        Err(LexFault::Bad { offset }) => Err(ProfileError::Refused(Refusal::NoToken { offset })),
        Err(
            LexFault::Limit {
                limit,
                count,
                offset,
            },
        ) => {
            let passed = Passed {
                limit: limit_of_text(limit),
                count: count as u128,
            };
            Err(ProfileError::Refused(Refusal::LimitAt { passed, offset }))
        }
        Err(LexFault::Memory) => Err(ProfileError::Memory),
    }
}

/// The tree of the tokens of a text.
fn tree_of(alloc: Global, text: &[u8]) -> Result<TranslationUnit, ProfileError>
    requires { length text.now ≤ 65536 }
    ensures ok { IfOk result (IsTreeOf text.now) }
    ensures refused { IfErr result (λ e. (r : refusal.Refusal) → e ≡ error.Refused r → IsRefused text.now r) }
{
    let tokens = tokens_of(alloc, text)?;
    match c_parser::parse(alloc, tokens.as_slice()) {
        Ok(tree) => Ok(tree),
        Err(ParseError::Syntax { offset, .. }) => {
            Err(ProfileError::Refused(Refusal::Syntax { offset }))
        }
        Err(ParseError::Nesting { count, offset, .. }) => {
            let passed = Passed {
                limit: Limit::Nesting,
                count: count as u128,
            };
            Err(ProfileError::Refused(Refusal::LimitAt { passed, offset }))
        }
        Err(ParseError::Memory) => Err(ProfileError::Memory),
    }
}

/// The program within the limits, with its thread functions and its weight.
fn within(alloc: Global, program: Program) -> Result<Accepted, ProfileError>
    ensures same { IfOk result (λ a. program_of a.program ≡ program_of program) }
    ensures ok { IfOk result (λ a. IsWithin (program_of a.program) a.weight) }
    ensures functions { IfOk result (λ a. a.functions.items ≡ thread_functions (program_of a.program)) }
    ensures refused { IfErr result (λ e. (r : refusal.Refusal) → e ≡ error.Refused r → IsPassed (program_of program) r) }
{
    match measure(alloc, &program) {
        Ok(measures) => match measures.first_passed {
            Some(passed) => Err(ProfileError::Refused(Refusal::Limit(passed))),
            None => Ok(Accepted {
                program,
                functions: measures.functions,
                weight: measures.weight,
            }),
        },
        Err(_) => Err(ProfileError::Memory),
    }
}

/// The answer for a tree that has no program.
fn answer_to(error: ResolveError) -> ProfileError
    ensures { result ≡ answer_to error }
{
    match error {
        ResolveError::Broken(Fault { rule, offset }) => {
            ProfileError::Refused(Refusal::Broken { rule, offset })
        }
        ResolveError::NoMain => ProfileError::Refused(Refusal::NoMain),
        ResolveError::Memory => ProfileError::Memory,
    }
}

/// The program of a text with its thread functions and its weight, or the first reason why it is refused.
fn program_or_refusal(alloc: Global, text: &[u8]) -> Result<Accepted, ProfileError>
    ensures ok { IfOk result (λ a. IsAccepted text.now (program_of a.program) a.weight) }
    ensures functions { IfOk result (λ a. a.functions.items ≡ thread_functions (program_of a.program)) }
    ensures refused { IfErr result (λ e. (r : refusal.Refusal) → e ≡ error.Refused r → IsRefused text.now r) }
{
    if text.len() > MOST_BYTES {
        return Err(ProfileError::Refused(Refusal::TooLong));
    }
    let tree = tree_of(alloc, text)?;
    match c_types::resolve(alloc, &tree) {
        Ok(program) => within(alloc, program),
        Err(error) => Err(answer_to(error)),
    }
}

/// The program of a text of the profile with its thread functions and its weight, or the first reason why the text is refused. A
/// text that is accepted is answered only so, and so is one that is refused, but for want of memory.
pub fn accept(alloc: Global, text: &[u8]) -> Result<Accepted, ProfileError>
    ensures ok { IfOk result (λ a. IsAccepted text.now (program_of a.program) a.weight) }
    ensures functions { IfOk result (λ a. a.functions.items ≡ thread_functions (program_of a.program)) }
    ensures refused { IfErr result (λ e. (r : refusal.Refusal) → e ≡ error.Refused r → IsRefused text.now r) }
    ensures accepts { (P : tree.Program) (w : ℕ) → IsAccepted text.now P w → AcceptsOnly P w result }
    ensures refuses { (r : refusal.Refusal) → IsRefused text.now r → RefusesOnly r result }
{
    program_or_refusal(alloc, text)
}
