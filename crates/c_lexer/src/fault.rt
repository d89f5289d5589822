// What may stop the lexer.

ghost use Rattle.std.specs.Prelude.{◌≡◌};

use std::alloc::AllocError;
use thiserror::Error;

/// The largest number of tokens of a text, its end not counted.
pub const MAX_TOKENS: usize = 16_384;

/// The largest length of a name, in bytes.
pub const MAX_NAME_LENGTH: usize = 63;

/// A limit of a text's tokens.
#[derive(Clone, Copy, Debug)]
pub enum TextLimit {
    Tokens,
    NameLength,
}

/// The first fault of a text from left to right, or want of memory.
#[derive(Clone, Copy, Debug, Error)]
pub enum LexFault {
    /// No token, comment or directive starts at the offset, or it isn't closed.
    #[error("no token at byte {offset}")]
    Bad {
        offset: usize,
    },
    /// The token at the offset is the first to pass the limit, by this count.
    #[error("a limit of the text is passed at byte {offset}")]
    Limit {
        limit: TextLimit,
        count: usize,
        offset: usize,
    },
    /// Memory ran out.
    #[error("out of memory")]
    Memory,
}

impl From<AllocError> for LexFault {
    ghost use Rattle.c_lexer.specs.declared.fault.LexFault.TheVariants.{Memory};

    ghost from_gives = { λ _ fault. fault ≡ Memory };

    fn from(_error: AllocError) -> LexFault {
        LexFault::Memory
    }
}
