// Tokens with their places.

use crate::constant::Constant;
use crate::keyword::Keyword;
use crate::punctuator::Punctuator;
use sqlite_items::Items;

/// What a token is.
pub enum Kind {
    Keyword(Keyword),
    /// A letter or `_`, then letters, digits and `_`; no reserved word.
    Name(Items<u8>),
    Constant(Constant),
    /// The bytes between the quotes as they are written, its escapes not yet read.
    StringLiteral(Items<u8>),
    Punctuator(Punctuator),
    /// The end of the text.
    End,
}

/// A token and the place of its first byte, counted from 0; the end stands at the text's length.
pub struct Token {
    pub kind: Kind,
    pub offset: usize,
}

// A drop that is written here is proved here; a derived one is proved again in each crate that drops the type.

impl Drop for Kind {
    fn drop(self) {
        match self {
            Kind::Keyword(_) => {}
            Kind::Name(_) => {}
            Kind::Constant(_) => {}
            Kind::StringLiteral(_) => {}
            Kind::Punctuator(_) => {}
            Kind::End => {}
        }
    }
}

impl Drop for Token {
    fn drop(self) {
        let Token { kind: _, offset: _ } = self;
    }
}
