//! Grammars over tokens that carry their nesting, readers of them, and the exact place at which a text departs from a
//! grammar or nests too deep. The definitions stand in specs/, the theory in proofs/; the code is what parsers share.
//! `rt plant`: all 7 wrong bodies in 2 functions are refused.
#![tactic(auto)]

ghost use Rattle.std.specs.Prelude.{◌≡◌};
ghost use Rattle.grammar.specs.Steps.{too_deep_fault};

use std::alloc::AllocError;

/// Why a phrase was not read. The parser then stands at the faulty token, unless memory ran out.
#[derive(Clone, Copy, Debug, PartialEq, Eq)]
pub enum Fault {
    /// No sentence goes on with the token ahead.
    Syntax,
    /// A sentence goes on with the token ahead, but it is nested deeper than the limit, by so many levels.
    Nesting(u8),
    /// Memory ran out.
    Memory,
}

impl From<AllocError> for Fault {
    ghost use Rattle.grammar.specs.declared.Fault.TheVariants.{Memory};

    ghost from_gives = { λ _ e. e ≡ Memory };

    fn from(_e: AllocError) -> Fault {
        Fault::Memory
    }
}

/// The fault where no level of nesting is left for a phrase: the token ahead may begin it or not, or open a bracket that
/// is one level deeper than the phrase.
pub fn too_deep(begins: bool, opens: bool) -> Fault
    ensures { result ≡ too_deep_fault begins opens }
{
    if opens {
        Fault::Nesting(2)
    } else if begins {
        Fault::Nesting(1)
    } else {
        Fault::Syntax
    }
}
