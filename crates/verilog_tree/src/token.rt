// The tokens of a Verilog text.

use crate::name::{Identifier, Quoted};

/// A word of the grammar, which is no name.
#[derive(Clone, Copy, PartialEq, Eq)]
pub enum Word {
    Module,
    EndModule,
    Input,
    Output,
    Wire,
    Reg,
    Assign,
    Initial,
    Always,
    PosEdge,
    Begin,
    End,
    If,
}

/// Any other quoted mark of the grammar.
#[derive(Clone, Copy, PartialEq, Eq)]
pub enum Mark {
    OpenRound,
    CloseRound,
    OpenSquare,
    CloseSquare,
    OpenCurly,
    CloseCurly,
    Semicolon,
    Colon,
    Comma,
    Dot,
    At,
    Equal,
    LessEqual,
    Question,
    Plus,
    Minus,
    Star,
    Slash,
    Percent,
    And,
    Or,
    Xor,
    Tilde,
    EqualEqual,
    Less,
    ShiftLeft,
    ShiftRight,
    ArithmeticShiftRight,
    /// `'d`
    Decimal,
    /// `'sd`
    SignedDecimal,
    /// `$signed`
    Signed,
    /// `$write`
    Write,
}

/// A token of a Verilog text.
pub enum Token {
    Word(Word),
    Mark(Mark),
    Name(Identifier),
    /// A decimal number without leading zeros, below 2 to the 64.
    Number(u64),
    Quoted(Quoted),
}

// A drop that is written here is proved here; a derived one is proved again in each crate that drops the type.

impl Drop for Token {
    fn drop(self) {
        match self {
            Token::Word(_) => {}
            Token::Mark(_) => {}
            Token::Name(_) => {}
            Token::Number(_) => {}
            Token::Quoted(_) => {}
        }
    }
}
