// What a lexeme means where it stands: a token, or a part of a directive.

ghost use Rattle.std.specs.Prelude.{◌≡◌, [], IfOk, OnOk, false};
ghost use Rattle.c_lexer.specs.Meaning as spec;
ghost use Rattle.c_token.specs.Spelling.{keyword_of};

use crate::lexeme::{Class, behind, front};
use crate::names::Names;
use c_token::{Constant, Keyword, Kind};
use sqlite_items::Items;
use std::alloc::{AllocError, Global};

/// What a directive awaits next, besides blanks and comments.
#[derive(Clone, Copy)]
pub enum Awaits {
    /// `include` or `define`.
    Word,
    /// What an include directive names.
    Header,
    /// The name that is defined.
    Name,
    /// The integer constant that the name stands for.
    Value,
    /// The end of the line or of the text: the directive is whole.
    LineEnd,
}

/// Where a lexeme stands.
#[derive(Clone, Copy)]
pub enum Mode {
    /// In a line that has only blanks and comments so far: a directive may begin.
    LineStart,
    /// Behind a token of the line.
    InLine,
    /// In the directive whose `#` stands at this offset.
    Directive(usize, Awaits),
}

/// What a lexeme gives.
#[derive(Drop)]
pub enum Action {
    Nothing,
    Token(Kind),
    /// Its bytes are the name that a directive defines.
    Name,
    /// The constant that the last such name stands for.
    Value(Constant),
}

/// What a lexeme gives, and where the next one stands.
#[derive(Drop)]
pub struct Effect {
    pub mode: Mode,
    pub action: Action,
}

/// What the lexemes so far have defined, and where the next one stands.
#[derive(Drop)]
pub(crate) struct Context<'t> {
    pub(crate) mode: Mode,
    /// The names that directives define, in order.
    names: Names<'t>,
    /// The constants of these names.
    values: Items<Constant>,
}

/// No token, and this for the next lexeme.
fn only(mode: Mode) -> Option<Effect>
    ensures { result ≡ spec.only mode }
{
    Some(Effect {
        mode,
        action: Action::Nothing,
    })
}

impl<'t> Context<'t> {
    ghost use Rattle.c_lexer.specs.Contexts.{state_of};
    ghost use Rattle.c_lexer.specs.declared.meaning.Action.TheVariants as action;

    #[tactic(auto, unfolding(crate::specs::Meaning::start))]
    pub(crate) fn new(alloc: Global) -> Context<'t>
        ensures { state_of result ≡ spec.start }
    {
        Context {
            mode: Mode::LineStart,
            names: Names::new(alloc),
            values: Items::new(alloc),
        }
    }

    /// The constant that a directive has given the name.
    fn defined(&self, word: &[u8]) -> Option<Constant>
        ensures { result ≡ spec.defined (state_of self.now) word.now }
    {
        let index = self.names.place_of(word)?;
        self.values.get(index).copied()
    }

    /// The kind of the word: a keyword, a defined name's constant or a name.
    fn word_kind(&self, alloc: Global, word: &[u8]) -> Result<Kind, AllocError>
        ensures { IfOk result (λ k. k ≡ spec.word_kind word.now (keyword_of word.now) (spec.defined (state_of self.now) word.now)) }
    {
        if let Some(keyword) = Keyword::from_spelling(word) {
            return Ok(Kind::Keyword(keyword));
        }
        match self.defined(word) {
            Some(constant) => Ok(Kind::Constant(constant)),
            None => Ok(Kind::Name(Items::from_slice(alloc, word)?)),
        }
    }

    /// The token that the lexeme is; None where it is none, or a constant that is spelled badly.
    #[tactic(auto, unfolding(crate::specs::Meaning::token_of))]
    fn token_of(&self, alloc: Global, class: Class, word: &[u8]) -> Result<Option<Kind>, AllocError>
        ensures { IfOk result (λ o. o ≡ spec.token_of (state_of self.now) class word.now) }
    {
        match class {
            Class::Word => Ok(Some(self.word_kind(alloc, word)?)),
            Class::Number => Ok(Constant::from_integer(word).map(Kind::Constant)),
            Class::Character => Ok(Constant::from_character(word).map(Kind::Constant)),
            Class::Text => {
                let inside = front(behind(word, 1), word.len().saturating_sub(2));
                Ok(Some(Kind::StringLiteral(Items::from_slice(alloc, inside)?)))
            }
            Class::Mark(mark) => Ok(Some(Kind::Punctuator(mark))),
            _ => Ok(None),
        }
    }

    /// What a lexeme means in a line of tokens.
    fn in_line(
        &self,
        alloc: Global,
        at: usize,
        class: Class,
        word: &[u8],
    ) -> Result<Option<Effect>, AllocError>
        ensures { IfOk result (λ e. e ≡ spec.in_line at (state_of self.now) class word.now) }
    {
        if let Class::LineFeed = class {
            return Ok(only(Mode::LineStart));
        }
        let Some(kind) = self.token_of(alloc, class, word)? else {
            return Ok(None);
        };
        Ok(Some(Effect {
            mode: Mode::InLine,
            action: Action::Token(kind),
        }))
    }

    /// What a lexeme means in the directive whose `#` stands at the offset.
    fn in_directive(&self, awaits: Awaits, hash: usize, class: Class, word: &[u8]) -> Option<Effect>
        ensures { result ≡ spec.in_directive awaits hash (state_of self.now) class word.now }
    {
        match (awaits, class) {
            (Awaits::Word, Class::Word) if word == b"include".as_slice() => {
                only(Mode::Directive(hash, Awaits::Header))
            }
            (Awaits::Word, Class::Word) if word == b"define".as_slice() => {
                only(Mode::Directive(hash, Awaits::Name))
            }
            (Awaits::Header, Class::Header(_)) => only(Mode::Directive(hash, Awaits::LineEnd)),
            (Awaits::Name, Class::Word) => {
                if Keyword::from_spelling(word).is_some() || self.names.contains(word) {
                    return None;
                }
                Some(Effect {
                    mode: Mode::Directive(hash, Awaits::Value),
                    action: Action::Name,
                })
            }
            (Awaits::Value, Class::Number) => Some(Effect {
                mode: Mode::Directive(hash, Awaits::LineEnd),
                action: Action::Value(Constant::from_integer(word)?),
            }),
            (Awaits::LineEnd, Class::LineFeed) => only(Mode::LineStart),
            _ => None,
        }
    }

    /// What the lexeme at the offset means; None where it may not stand there.
    #[tactic(auto, unfolding(crate::specs::Meaning::effect_of))]
    pub(crate) fn effect_of(
        &self,
        alloc: Global,
        at: usize,
        class: Class,
        word: &[u8],
    ) -> Result<Option<Effect>, AllocError>
        ensures { IfOk result (λ e. e ≡ spec.effect_of at (state_of self.now) class word.now) }
    {
        if let Class::Blank | Class::LineComment | Class::BlockComment = class {
            return Ok(only(self.mode));
        }
        match (self.mode, class) {
            (Mode::Directive(hash, awaits), class) => Ok(self.in_directive(
                awaits, hash, class, word,
            )),
            (Mode::LineStart, Class::Hash) => Ok(only(Mode::Directive(at, Awaits::Word))),
            (_, class) => self.in_line(alloc, at, class, word),
        }
    }

    /// Whether an include directive awaits what it names.
    pub(crate) fn awaits_header(&self) -> bool
        ensures { result ≡ spec.awaits_header (state_of self.now) }
    {
        matches!(self.mode, Mode::Directive(_, Awaits::Header))
    }

    /// The next lexeme stands in this mode.
    pub(crate) fn turn(&mut self, mode: Mode)
        ensures { state_of self.new ≡ spec.after_action mode action.Nothing [] (state_of self.old) }
    {
        self.mode = mode;
    }

    /// Notes the name that a directive defines, which is new.
    pub(crate) fn name(&mut self, mode: Mode, word: &'t [u8]) -> Result<(), AllocError>
        requires { spec.is_defined (state_of self.old) word.now ≡ false }
        ensures { OnOk result (state_of self.new ≡ spec.after_action mode action.Name word.now (state_of self.old)) }
    {
        self.names.add(word)?;
        self.mode = mode;
        Ok(())
    }

    /// Notes the constant of the last such name.
    pub(crate) fn define(&mut self, mode: Mode, constant: Constant) -> Result<(), AllocError>
        ensures { OnOk result (state_of self.new ≡ spec.after_action mode (action.Value constant) [] (state_of self.old)) }
    {
        self.values.push(constant)?;
        self.mode = mode;
        Ok(())
    }
}
