// Tokens with one spelling.

use c_token::{Keyword, Punctuator};

/// A token with one spelling, or the end of the text.
#[derive(Clone, Copy)]
pub enum Sign {
    Word(Keyword),
    Mark(Punctuator),
    End,
}
