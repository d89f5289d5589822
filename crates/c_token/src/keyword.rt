// Reserved words (C99 6.4.1), and the words of POSIX threads that the profile reserves too.

ghost use Rattle.std.specs.Prelude.{◌≡◌};

/// A reserved word: it is never a name. The grammar of the profile takes only some of them.
#[derive(Clone, Copy, PartialEq, Eq)]
pub enum Keyword {
    Auto,
    Break,
    Case,
    Char,
    Const,
    Continue,
    Default,
    Do,
    Double,
    Else,
    Enum,
    Extern,
    Float,
    For,
    Goto,
    If,
    Inline,
    Int,
    Long,
    Register,
    Restrict,
    Return,
    Short,
    Signed,
    Sizeof,
    Static,
    Struct,
    Switch,
    Typedef,
    Union,
    Unsigned,
    Void,
    Volatile,
    While,
    /// `_Bool`
    Bool,
    /// `_Complex`
    Complex,
    /// `_Imaginary`
    Imaginary,
    /// `NULL`
    Null,
    /// `PTHREAD_MUTEX_INITIALIZER`
    MutexInitializer,
    /// `pthread_t`
    ThreadId,
    /// `pthread_mutex_t`
    Mutex,
    /// `pthread_barrier_t`
    Barrier,
}

impl Keyword {
    ghost use Rattle.c_token.specs.Spelling.{keywords, keyword_spelling, keyword_of};

    /// Each keyword once.
    pub const ALL: [Keyword; 42] = [
        Keyword::Auto,
        Keyword::Break,
        Keyword::Case,
        Keyword::Char,
        Keyword::Const,
        Keyword::Continue,
        Keyword::Default,
        Keyword::Do,
        Keyword::Double,
        Keyword::Else,
        Keyword::Enum,
        Keyword::Extern,
        Keyword::Float,
        Keyword::For,
        Keyword::Goto,
        Keyword::If,
        Keyword::Inline,
        Keyword::Int,
        Keyword::Long,
        Keyword::Register,
        Keyword::Restrict,
        Keyword::Return,
        Keyword::Short,
        Keyword::Signed,
        Keyword::Sizeof,
        Keyword::Static,
        Keyword::Struct,
        Keyword::Switch,
        Keyword::Typedef,
        Keyword::Union,
        Keyword::Unsigned,
        Keyword::Void,
        Keyword::Volatile,
        Keyword::While,
        Keyword::Bool,
        Keyword::Complex,
        Keyword::Imaginary,
        Keyword::Null,
        Keyword::MutexInitializer,
        Keyword::ThreadId,
        Keyword::Mutex,
        Keyword::Barrier,
    ];

    /// The keyword's one spelling.
    pub fn spelling(self) -> &'static str
        ensures { result.now ≡ keyword_spelling self }
    {
        match self {
            Keyword::Auto => "auto",
            Keyword::Break => "break",
            Keyword::Case => "case",
            Keyword::Char => "char",
            Keyword::Const => "const",
            Keyword::Continue => "continue",
            Keyword::Default => "default",
            Keyword::Do => "do",
            Keyword::Double => "double",
            Keyword::Else => "else",
            Keyword::Enum => "enum",
            Keyword::Extern => "extern",
            Keyword::Float => "float",
            Keyword::For => "for",
            Keyword::Goto => "goto",
            Keyword::If => "if",
            Keyword::Inline => "inline",
            Keyword::Int => "int",
            Keyword::Long => "long",
            Keyword::Register => "register",
            Keyword::Restrict => "restrict",
            Keyword::Return => "return",
            Keyword::Short => "short",
            Keyword::Signed => "signed",
            Keyword::Sizeof => "sizeof",
            Keyword::Static => "static",
            Keyword::Struct => "struct",
            Keyword::Switch => "switch",
            Keyword::Typedef => "typedef",
            Keyword::Union => "union",
            Keyword::Unsigned => "unsigned",
            Keyword::Void => "void",
            Keyword::Volatile => "volatile",
            Keyword::While => "while",
            Keyword::Bool => "_Bool",
            Keyword::Complex => "_Complex",
            Keyword::Imaginary => "_Imaginary",
            Keyword::Null => "NULL",
            Keyword::MutexInitializer => "PTHREAD_MUTEX_INITIALIZER",
            Keyword::ThreadId => "pthread_t",
            Keyword::Mutex => "pthread_mutex_t",
            Keyword::Barrier => "pthread_barrier_t",
        }
    }

    /// The keyword that is spelled so.
    #[tactic(auto, unfolding(crate::specs::Spelling::keyword_of))]
    pub fn from_spelling(word: &[u8]) -> Option<Keyword>
        ensures { result ≡ keyword_of word.now }
    {
        Keyword::ALL
            .iter()
            .copied()
            .find(|k| k.spelling().as_bytes() == word)
    }
}
