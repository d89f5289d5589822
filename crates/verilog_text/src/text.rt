// A text that is put together token by token. Blanks, line feeds and indentation are its own.

ghost use Rattle.std.specs.Prelude.{◌≡◌, ◌++◌, [], ◌∷◌, true, OnOk, IfOk, ◌+◌, nat_lt, if◌then◌else◌};
ghost use Rattle.verilog_tree.specs.Spelling.{word_spelling, is_name, is_quoted};
ghost use Rattle.verilog_tree.specs.Tokens.{mark_spelling, is_token};
ghost use Rattle.verilog_tree.specs.declared.token.Token.TheVariants as t;
ghost use Rattle.verilog_tree.specs.Grammar as g;
ghost use Rattle.verilog_text.specs.Layout.{put, put_all, piece_tokens, phrase, AllTokens, piece, begun, gap, spaces, start, layout, word_layout, mark_layout, brackets_after, plain};

use hls_io::{Bytes, put_dec};
use std::alloc::{AllocError, Global};
use verilog_tree::name::{Identifier, Quoted};
use verilog_tree::token::{Mark, Word};

/// What a text ends with, for the blank before the next token.
#[derive(Clone, Copy)]
pub enum Ending {
    /// Nothing is written yet.
    Start,
    /// The line is at its end.
    Line,
    /// No blank follows.
    Open,
    /// A blank follows, but before a token that hugs.
    Plain,
    /// A blank follows.
    Apart,
}

/// How a token is laid out: whether no blank stands before it, how it changes the depth, and how it ends.
#[derive(Clone, Copy)]
pub struct Layout {
    pub hugs: bool,
    pub outdents: bool,
    pub indents: bool,
    pub ending: Ending,
}

/// A text, its depth of blocks, and whether a range or a select is open.
#[derive(Drop)]
pub struct Text {
    pub bytes: Bytes,
    pub ending: Ending,
    pub depth: u32,
    pub in_brackets: bool,
}

/// A token of a phrase. Names and texts are borrowed.
#[derive(Clone, Copy)]
pub enum Piece<'p> {
    Word(Word),
    Mark(Mark),
    Name(&'p Identifier),
    Number(u64),
    Quoted(&'p Quoted),
    /// The name `clk`.
    Clock,
}

/// Deeper levels are indented as this one.
const DEEPEST_LEVEL: u32 = 32;

impl Text {
    pub fn new(alloc: Global) -> Self
        ensures { result ≡ start }
    {
        Text {
            bytes: Bytes::new(alloc),
            ending: Ending::Start,
            depth: 0,
            in_brackets: false,
        }
    }

    #[tactic(auto, unfolding(crate::specs::Layout::put))]
    pub fn word(&mut self, word: Word) -> Result<(), AllocError>
        ensures { OnOk result (self.new ≡ put self.old (t.Word word)) }
    {
        self.piece(word_layout(word), word_text(word))
    }

    #[tactic(auto, unfolding(crate::specs::Layout::put))]
    pub fn mark(&mut self, mark: Mark) -> Result<(), AllocError>
        ensures { OnOk result (self.new ≡ put self.old (t.Mark mark)) }
    {
        self.piece(mark_layout(self.in_brackets, mark), mark_text(mark))?;
        self.in_brackets = brackets_after(self.in_brackets, mark);
        Ok(())
    }

    #[tactic(auto, unfolding(crate::specs::Layout::put))]
    pub fn name(&mut self, name: &Identifier) -> Result<(), AllocError>
        ensures text { OnOk result (self.new ≡ put self.old (t.Name name.now)) }
        ensures name { is_name name.now ≡ true }
    {
        self.piece(plain(), name.as_str().as_bytes())
    }

    #[tactic(auto, unfolding(crate::specs::Layout::put))]
    pub fn number(&mut self, number: u64) -> Result<(), AllocError>
        ensures { OnOk result (self.new ≡ put self.old (t.Number number)) }
    {
        self.begin(plain())?;
        put_dec(&mut self.bytes, i128::from(number))
    }

    #[tactic(auto, unfolding(crate::specs::Layout::put))]
    pub fn clock(&mut self) -> Result<(), AllocError>
        ensures { OnOk result (self.new ≡ put self.old (t.Name g.clk)) }
    {
        self.piece(plain(), b"clk")
    }

    /// The text between quotes.
    #[tactic(auto, unfolding(crate::specs::Layout::put))]
    pub fn quoted(&mut self, text: &Quoted) -> Result<(), AllocError>
        ensures text { OnOk result (self.new ≡ put self.old (t.Quoted text.now)) }
        ensures quoted { is_token (t.Quoted text.now) ≡ true }
    {
        let inside = text.as_str();
        self.begin(plain())?;
        self.bytes.push(b'"')?;
        self.bytes.put(inside.as_bytes())?;
        self.bytes.push(b'"')
    }

    fn put(&mut self, piece: Piece<'_>) -> Result<(), AllocError>
        ensures text { OnOk result (self.new ≡ put_all self.old (piece_tokens piece.entry)) }
        ensures tokens { AllTokens (piece_tokens piece.entry) }
    {
        match piece {
            Piece::Word(word) => self.word(word),
            Piece::Mark(mark) => self.mark(mark),
            Piece::Name(name) => self.name(name),
            Piece::Number(number) => self.number(number),
            Piece::Quoted(text) => self.quoted(text),
            Piece::Clock => self.clock(),
        }
    }

    /// The tokens of a phrase.
    pub fn phrase(&mut self, pieces: &[Piece<'_>]) -> Result<(), AllocError>
        ensures text { OnOk result (self.new ≡ put_all self.old (phrase pieces.now)) }
        ensures tokens { OnOk result (AllTokens (phrase pieces.now)) }
    {
        for piece in pieces {
            self.put(*piece)?;
        }
        Ok(())
    }

    /// The bytes, with the end of the last line.
    pub fn finish(self) -> Result<Bytes, AllocError>
        ensures { IfOk result (λ bytes. bytes ≡ self.bytes ++ 10 ∷ []) }
    {
        let Text { mut bytes, .. } = self;
        bytes.push(b'\n')?;
        Ok(bytes)
    }

    fn piece(&mut self, layout: Layout, bytes: &[u8]) -> Result<(), AllocError>
        ensures { OnOk result (self.new ≡ piece self.old layout bytes.now) }
    {
        self.begin(layout)?;
        self.bytes.put(bytes)
    }

    /// What stands before a token of this layout. The state is that behind the token.
    fn begin(&mut self, layout: Layout) -> Result<(), AllocError>
        ensures { OnOk result (self.new ≡ begun self.old layout) }
    {
        let before = if layout.outdents {
            self.depth.saturating_sub(1)
        } else {
            self.depth
        };
        put_gap(&mut self.bytes, self.ending, before, layout.hugs)?;
        self.ending = layout.ending;
        self.depth = if layout.indents {
            deeper(self.depth)
        } else {
            before
        };
        Ok(())
    }
}

fn deeper(depth: u32) -> u32
    ensures { result ≡ (if nat_lt depth 32 then depth + 1 else depth) }
{
    if depth < DEEPEST_LEVEL {
        depth + 1
    } else {
        depth
    }
}

fn put_gap(out: &mut Bytes, ending: Ending, depth: u32, hugs: bool) -> Result<(), AllocError>
    ensures { OnOk result (out.new ≡ out.old ++ gap ending depth hugs) }
{
    match ending {
        Ending::Start | Ending::Open => Ok(()),
        Ending::Line => new_line(out, depth),
        Ending::Plain => { if hugs { Ok(()) } else { out.push(b' ') } }
        Ending::Apart => out.push(b' '),
    }
}

fn new_line(out: &mut Bytes, depth: u32) -> Result<(), AllocError>
    ensures { OnOk result (out.new ≡ out.old ++ 10 ∷ spaces depth) }
{
    out.push(b'\n')?;
    for _level in 0..depth {
        out.put(b"  ")?;
    }
    Ok(())
}

fn laid_out(hugs: bool, outdents: bool, indents: bool, ending: Ending) -> Layout
    ensures { result ≡ layout hugs outdents indents ending }
{
    Layout {
        hugs,
        outdents,
        indents,
        ending,
    }
}

fn plain() -> Layout
    ensures { result ≡ plain }
{
    laid_out(false, false, false, Ending::Plain)
}

fn word_layout(word: Word) -> Layout
    ensures { result ≡ word_layout word }
{
    match word {
        Word::Module => laid_out(false, false, true, Ending::Apart),
        Word::Begin => laid_out(false, false, true, Ending::Line),
        Word::End | Word::EndModule => laid_out(false, true, false, Ending::Line),
        _ => laid_out(false, false, false, Ending::Apart),
    }
}

fn mark_layout(in_brackets: bool, mark: Mark) -> Layout
    ensures { result ≡ mark_layout in_brackets mark }
{
    match mark {
        Mark::Dot | Mark::At | Mark::Tilde | Mark::Signed | Mark::Write => laid_out(
            false,
            false,
            false,
            Ending::Open,
        ),
        Mark::OpenRound
        | Mark::OpenSquare
        | Mark::OpenCurly
        | Mark::Decimal
        | Mark::SignedDecimal => { laid_out(true, false, false, Ending::Open) }
        Mark::CloseRound | Mark::CloseSquare | Mark::CloseCurly | Mark::Comma => {
            laid_out(true, false, false, Ending::Plain)
        }
        Mark::Semicolon => laid_out(true, false, false, Ending::Line),
        Mark::Equal => laid_out(false, false, false, Ending::Apart),
        Mark::Colon => {
            if in_brackets {
                laid_out(true, false, false, Ending::Open)
            } else {
                plain()
            }
        }
        _ => plain(),
    }
}

/// Whether a range or a select is open behind the mark.
fn brackets_after(in_brackets: bool, mark: Mark) -> bool
    ensures { result ≡ brackets_after in_brackets (t.Mark mark) }
{
    match mark {
        Mark::OpenSquare => true,
        Mark::CloseSquare => false,
        _ => in_brackets,
    }
}

fn word_text(word: Word) -> &'static [u8]
    ensures { result.now ≡ word_spelling word }
{
    match word {
        Word::Module => b"module",
        Word::EndModule => b"endmodule",
        Word::Input => b"input",
        Word::Output => b"output",
        Word::Wire => b"wire",
        Word::Reg => b"reg",
        Word::Assign => b"assign",
        Word::Initial => b"initial",
        Word::Always => b"always",
        Word::PosEdge => b"posedge",
        Word::Begin => b"begin",
        Word::End => b"end",
        Word::If => b"if",
    }
}

fn mark_text(mark: Mark) -> &'static [u8]
    ensures { result.now ≡ mark_spelling mark }
{
    match mark {
        Mark::OpenRound => b"(",
        Mark::CloseRound => b")",
        Mark::OpenSquare => b"[",
        Mark::CloseSquare => b"]",
        Mark::OpenCurly => b"{",
        Mark::CloseCurly => b"}",
        Mark::Semicolon => b";",
        Mark::Colon => b":",
        Mark::Comma => b",",
        Mark::Dot => b".",
        Mark::At => b"@",
        Mark::Equal => b"=",
        Mark::LessEqual => b"<=",
        Mark::Question => b"?",
        Mark::Plus => b"+",
        Mark::Minus => b"-",
        Mark::Star => b"*",
        Mark::Slash => b"/",
        Mark::Percent => b"%",
        Mark::And => b"&",
        Mark::Or => b"|",
        Mark::Xor => b"^",
        Mark::Tilde => b"~",
        Mark::EqualEqual => b"==",
        Mark::Less => b"<",
        Mark::ShiftLeft => b"<<",
        Mark::ShiftRight => b">>",
        Mark::ArithmeticShiftRight => b">>>",
        Mark::Decimal => b"'d",
        Mark::SignedDecimal => b"'sd",
        Mark::Signed => b"$signed",
        Mark::Write => b"$write",
    }
}
