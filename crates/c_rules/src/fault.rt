// Which rule a text breaks, and where.

ghost use Rattle.std.specs.Prelude.{◌≡◌};
ghost use Rattle.c_rules.specs.Faults as spec;

use std::alloc::AllocError;
use thiserror::Error;

/// A rule on names, kinds and types that a text can break, in the order in which rules that are broken at one place
/// are reported.
#[derive(Clone, Copy, PartialEq, Eq, Debug)]
pub enum Rule {
    /// A name that is not declared before, or a function that is called or started and never defined.
    Unknown,
    /// A second declaration of a name in one scope, or one of a function of the library.
    Twice,
    /// A name, a type, an argument or a return of another kind than its place takes.
    Kind,
    /// Another number of arguments than the function takes.
    Arguments,
    /// A call that leads back to its caller.
    Recursive,
    /// A rule on threads and their objects.
    Threads,
    /// A call, an operator or a jump where none may stand.
    Place,
    /// A constant, a length or an initial value that is out of range.
    Constant,
    /// The format of a printf.
    Format,
}

impl Rule {
    /// Its number among the refusals of a text.
    pub fn number(self) -> u8
        ensures { result ≡ spec.number self }
    {
        match self {
            Rule::Unknown => 4,
            Rule::Twice => 5,
            Rule::Kind => 6,
            Rule::Arguments => 7,
            Rule::Recursive => 8,
            Rule::Threads => 9,
            Rule::Place => 10,
            Rule::Constant => 11,
            Rule::Format => 13,
        }
    }
}

/// A rule that is broken, and the place of that in the text.
#[derive(Clone, Copy, Debug)]
pub struct Fault {
    pub rule: Rule,
    pub offset: usize,
}

/// The first of two faults: by place, and at one place by number.
#[tactic(auto, unfolding(crate::specs::Faults::first))]
pub fn first(a: Option<Fault>, b: Option<Fault>) -> Option<Fault>
    ensures { result ≡ spec.first a b }
{
    match (a, b) {
        (None, b) => b,
        (Some(a), None) => Some(a),
        (Some(a), Some(b)) => {
            if b.offset < a.offset || (b.offset == a.offset && b.rule.number() < a.rule.number()) {
                Some(b)
            } else {
                Some(a)
            }
        }
    }
}

/// Why a tree has no program.
#[derive(Clone, Copy, Debug, Error)]
pub enum ResolveError {
    /// The first rule that is broken, by place and then by number.
    #[error("{0:?}")]
    Broken(Fault),
    /// No rule is broken, but no main is defined.
    #[error("no main")]
    NoMain,
    /// Memory ran out.
    #[error("out of memory")]
    Memory,
}

impl From<AllocError> for ResolveError {
    ghost use Rattle.c_rules.specs.declared.fault.ResolveError.TheVariants.{Memory};

    ghost from_gives = { λ _ e. e ≡ Memory };

    fn from(_error: AllocError) -> ResolveError {
        ResolveError::Memory
    }
}
