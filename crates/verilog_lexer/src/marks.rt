// Marks and words, by their spellings.

ghost use Rattle.std.specs.Prelude.{◌≡◌};
ghost use Rattle.verilog_tree.specs.Spelling as spelling;
ghost use Rattle.verilog_tree.specs.Tokens as tokens;
ghost use Rattle.verilog_lexer.specs.Runs as spec;

use verilog_tree::token::{Mark, Word};

const ALL_WORDS: [Word; 13] = [
    Word::Module,
    Word::EndModule,
    Word::Input,
    Word::Output,
    Word::Wire,
    Word::Reg,
    Word::Assign,
    Word::Initial,
    Word::Always,
    Word::PosEdge,
    Word::Begin,
    Word::End,
    Word::If,
];

/// A mark stands behind those that begin with it.
pub(crate) const ALL_MARKS: [Mark; 32] = [
    Mark::OpenRound,
    Mark::CloseRound,
    Mark::OpenSquare,
    Mark::CloseSquare,
    Mark::OpenCurly,
    Mark::CloseCurly,
    Mark::Semicolon,
    Mark::Colon,
    Mark::Comma,
    Mark::Dot,
    Mark::At,
    Mark::EqualEqual,
    Mark::Equal,
    Mark::LessEqual,
    Mark::ShiftLeft,
    Mark::Less,
    Mark::ArithmeticShiftRight,
    Mark::ShiftRight,
    Mark::Question,
    Mark::Plus,
    Mark::Minus,
    Mark::Star,
    Mark::Slash,
    Mark::Percent,
    Mark::And,
    Mark::Or,
    Mark::Xor,
    Mark::Tilde,
    Mark::SignedDecimal,
    Mark::Decimal,
    Mark::Signed,
    Mark::Write,
];

fn word_spelling(word: Word) -> &'static [u8]
    ensures { result.now ≡ spelling.word_spelling word }
{
    match word {
        Word::Module => b"module",
        Word::EndModule => b"endmodule",
        Word::Input => b"input",
        Word::Output => b"output",
        Word::Wire => b"wire",
        Word::Reg => b"reg",
        Word::Assign => b"assign",
        Word::Initial => b"initial",
        Word::Always => b"always",
        Word::PosEdge => b"posedge",
        Word::Begin => b"begin",
        Word::End => b"end",
        Word::If => b"if",
    }
}

fn mark_spelling(mark: Mark) -> &'static [u8]
    ensures { result.now ≡ tokens.mark_spelling mark }
{
    match mark {
        Mark::OpenRound => b"(",
        Mark::CloseRound => b")",
        Mark::OpenSquare => b"[",
        Mark::CloseSquare => b"]",
        Mark::OpenCurly => b"{",
        Mark::CloseCurly => b"}",
        Mark::Semicolon => b";",
        Mark::Colon => b":",
        Mark::Comma => b",",
        Mark::Dot => b".",
        Mark::At => b"@",
        Mark::Equal => b"=",
        Mark::LessEqual => b"<=",
        Mark::Question => b"?",
        Mark::Plus => b"+",
        Mark::Minus => b"-",
        Mark::Star => b"*",
        Mark::Slash => b"/",
        Mark::Percent => b"%",
        Mark::And => b"&",
        Mark::Or => b"|",
        Mark::Xor => b"^",
        Mark::Tilde => b"~",
        Mark::EqualEqual => b"==",
        Mark::Less => b"<",
        Mark::ShiftLeft => b"<<",
        Mark::ShiftRight => b">>",
        Mark::ArithmeticShiftRight => b">>>",
        Mark::Decimal => b"'d",
        Mark::SignedDecimal => b"'sd",
        Mark::Signed => b"$signed",
        Mark::Write => b"$write",
    }
}

/// The first of these words that is spelled so.
#[tactic(auto, using(crate::proofs::FrontMarks::word_here, crate::proofs::FrontMarks::word_later))]
fn word_among(words: &[Word], text: &[u8]) -> Option<Word>
    ensures { result ≡ spelling.word_among words.now text.now }
{
    for word in words {
        if text == word_spelling(*word) {
            return Some(*word);
        }
    }
    None
}

/// The word that is spelled so.
pub(crate) fn word_of(text: &[u8]) -> Option<Word>
    ensures { result ≡ spelling.word_among spelling.all_words text.now }
{
    word_among(&ALL_WORDS, text)
}

/// The first of these marks that stands at the front of the text, and how many bytes it has.
#[tactic(auto, using(crate::proofs::FrontMarks::mark_found, crate::proofs::FrontMarks::mark_passed))]
pub(crate) fn mark_among(marks: &[Mark], text: &[u8]) -> Option<(Mark, usize)>
    ensures { spec.IsMarkAmong marks.now text.now result }
{
    for mark in marks {
        let mark_text = mark_spelling(*mark);
        if text.starts_with(mark_text) {
            return Some((*mark, mark_text.len()));
        }
    }
    None
}
