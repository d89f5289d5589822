// Punctuators (C99 6.4.6) of the profile.

ghost use Rattle.std.specs.Prelude.{◌≡◌};

/// A punctuator: a mark of one to three bytes.
#[derive(Clone, Copy, PartialEq, Eq)]
pub enum Punctuator {
    /// `<<=`
    ShiftLeftAssign,
    /// `>>=`
    ShiftRightAssign,
    /// `+=`
    PlusAssign,
    /// `-=`
    MinusAssign,
    /// `*=`
    StarAssign,
    /// `/=`
    SlashAssign,
    /// `%=`
    PercentAssign,
    /// `&=`
    AndAssign,
    /// `|=`
    OrAssign,
    /// `^=`
    XorAssign,
    /// `<<`
    ShiftLeft,
    /// `>>`
    ShiftRight,
    /// `<=`
    LessEqual,
    /// `>=`
    GreaterEqual,
    /// `==`
    EqualEqual,
    /// `!=`
    NotEqual,
    /// `&&`
    AndAnd,
    /// `||`
    OrOr,
    /// `++`
    PlusPlus,
    /// `--`
    MinusMinus,
    /// `(`
    OpenRound,
    /// `)`
    CloseRound,
    /// `{`
    OpenCurly,
    /// `}`
    CloseCurly,
    /// `[`
    OpenSquare,
    /// `]`
    CloseSquare,
    /// `;`
    Semicolon,
    /// `,`
    Comma,
    /// `+`
    Plus,
    /// `-`
    Minus,
    /// `*`
    Star,
    /// `/`
    Slash,
    /// `%`
    Percent,
    /// `&`
    And,
    /// `|`
    Or,
    /// `^`
    Xor,
    /// `~`
    Tilde,
    /// `!`
    Exclamation,
    /// `<`
    Less,
    /// `>`
    Greater,
    /// `=`
    Assign,
    /// `?`
    Question,
    /// `:`
    Colon,
}

impl Punctuator {
    ghost use Rattle.c_token.specs.Spelling.{punctuators, punctuator_spelling, punctuator_at};

    /// Each punctuator once, the longest first.
    pub const LONGEST_FIRST: [Punctuator; 43] = [
        Punctuator::ShiftLeftAssign,
        Punctuator::ShiftRightAssign,
        Punctuator::PlusAssign,
        Punctuator::MinusAssign,
        Punctuator::StarAssign,
        Punctuator::SlashAssign,
        Punctuator::PercentAssign,
        Punctuator::AndAssign,
        Punctuator::OrAssign,
        Punctuator::XorAssign,
        Punctuator::ShiftLeft,
        Punctuator::ShiftRight,
        Punctuator::LessEqual,
        Punctuator::GreaterEqual,
        Punctuator::EqualEqual,
        Punctuator::NotEqual,
        Punctuator::AndAnd,
        Punctuator::OrOr,
        Punctuator::PlusPlus,
        Punctuator::MinusMinus,
        Punctuator::OpenRound,
        Punctuator::CloseRound,
        Punctuator::OpenCurly,
        Punctuator::CloseCurly,
        Punctuator::OpenSquare,
        Punctuator::CloseSquare,
        Punctuator::Semicolon,
        Punctuator::Comma,
        Punctuator::Plus,
        Punctuator::Minus,
        Punctuator::Star,
        Punctuator::Slash,
        Punctuator::Percent,
        Punctuator::And,
        Punctuator::Or,
        Punctuator::Xor,
        Punctuator::Tilde,
        Punctuator::Exclamation,
        Punctuator::Less,
        Punctuator::Greater,
        Punctuator::Assign,
        Punctuator::Question,
        Punctuator::Colon,
    ];

    /// The punctuator's bytes.
    pub fn spelling(self) -> &'static str
        ensures { result.now ≡ punctuator_spelling self }
    {
        match self {
            Punctuator::ShiftLeftAssign => "<<=",
            Punctuator::ShiftRightAssign => ">>=",
            Punctuator::PlusAssign => "+=",
            Punctuator::MinusAssign => "-=",
            Punctuator::StarAssign => "*=",
            Punctuator::SlashAssign => "/=",
            Punctuator::PercentAssign => "%=",
            Punctuator::AndAssign => "&=",
            Punctuator::OrAssign => "|=",
            Punctuator::XorAssign => "^=",
            Punctuator::ShiftLeft => "<<",
            Punctuator::ShiftRight => ">>",
            Punctuator::LessEqual => "<=",
            Punctuator::GreaterEqual => ">=",
            Punctuator::EqualEqual => "==",
            Punctuator::NotEqual => "!=",
            Punctuator::AndAnd => "&&",
            Punctuator::OrOr => "||",
            Punctuator::PlusPlus => "++",
            Punctuator::MinusMinus => "--",
            Punctuator::OpenRound => "(",
            Punctuator::CloseRound => ")",
            Punctuator::OpenCurly => "{",
            Punctuator::CloseCurly => "}",
            Punctuator::OpenSquare => "[",
            Punctuator::CloseSquare => "]",
            Punctuator::Semicolon => ";",
            Punctuator::Comma => ",",
            Punctuator::Plus => "+",
            Punctuator::Minus => "-",
            Punctuator::Star => "*",
            Punctuator::Slash => "/",
            Punctuator::Percent => "%",
            Punctuator::And => "&",
            Punctuator::Or => "|",
            Punctuator::Xor => "^",
            Punctuator::Tilde => "~",
            Punctuator::Exclamation => "!",
            Punctuator::Less => "<",
            Punctuator::Greater => ">",
            Punctuator::Assign => "=",
            Punctuator::Question => "?",
            Punctuator::Colon => ":",
        }
    }

    /// The longest punctuator that the text begins with.
    #[tactic(auto, unfolding(crate::specs::Spelling::punctuator_at))]
    pub fn longest_at(text: &[u8]) -> Option<Punctuator>
        ensures { result ≡ punctuator_at text.now }
    {
        Punctuator::LONGEST_FIRST
            .iter()
            .copied()
            .find(|p| text.starts_with(p.spelling().as_bytes()))
    }
}
