// A cursor over tokens.

ghost use Rattle.std.specs.Prelude.{List, ◌≡◌, ◌||◌, [], ◌∷◌, length};
ghost use Rattle.grammar.specs.Readers.{sees, sees_all};
ghost use Rattle.grammar.specs.Steps.{Steps};
ghost use Rattle.c_token.specs.declared.token.Token.{Token};
ghost use Rattle.c_tree.specs.Tokens as tokens_of;
ghost use Rattle.c_reading.specs.Tokens as spec;

use crate::tokens;
use c_token::{Keyword, Kind, Punctuator, Token};
use c_tree::{
    AssignmentOperator, BinaryOperator, Direction, Expression, Form, Name, Sign, TypeWord,
    UnaryOperator,
};
use grammar::Fault;
use sqlite_items::Items;
use std::alloc::Global;
use std::marker::Model;

/// The tokens that are not read yet. A clause sees them as their list, so no step of a proof holds the type of tokens.
#[derive(Drop)]
pub struct Cursor<'a> {
    rest: &'a [Token],
}

impl<'a> Model for Cursor<'a> {
    ghost Value = { List Token };

    ghost view = { λ c. c.rest.now };
}

/// A fact of the next token.
impl<'a> Cursor<'a> {
    /// A cursor before the first of the tokens.
    pub fn new(tokens: &'a [Token]) -> Cursor<'a>
        ensures { result ≡ tokens.now }
    {
        Cursor { rest: tokens }
    }

    /// How many tokens are left.
    pub fn left(&self) -> usize
        ensures { result ≡ length self.now }
    {
        self.rest.len()
    }

    /// Whether the sign, a keyword or a punctuator, is next.
    pub fn sees(&self, sign: Sign) -> bool
        ensures { result ≡ sees (tokens_of.is sign) self.now }
    {
        match self.rest {
            [token, ..] => tokens::is(token, sign),
            [] => false,
        }
    }

    /// Whether an identifier is next (C99 6.4.2).
    pub fn sees_name(&self) -> bool
        ensures { result ≡ sees tokens_of.is_name self.now }
    {
        match self.rest {
            [token, ..] => matches!(&token.kind, Kind::Name(_)),
            [] => false,
        }
    }

    /// Whether a constant is next (C99 6.4.4).
    pub fn sees_constant(&self) -> bool
        ensures { result ≡ sees tokens_of.is_constant self.now }
    {
        match self.rest {
            [token, ..] => matches!(&token.kind, Kind::Constant(_)),
            [] => false,
        }
    }

    /// Whether a string literal is next (C99 6.4.5).
    pub fn sees_text(&self) -> bool
        ensures { result ≡ sees tokens_of.is_text self.now }
    {
        match self.rest {
            [token, ..] => matches!(&token.kind, Kind::StringLiteral(_)),
            [] => false,
        }
    }

    /// Whether a word of a type is next (C99 6.7.2).
    pub fn sees_type_word(&self) -> bool
        ensures { result ≡ sees tokens_of.is_type_word self.now }
    {
        match self.rest {
            [token, ..] => tokens::type_word(token).is_some(),
            [] => false,
        }
    }

    /// Whether `+`, `-`, `~` or `!` is next (C99 6.5.3).
    pub fn sees_unary_operator(&self) -> bool
        ensures { result ≡ sees tokens_of.is_unary self.now }
    {
        match self.rest {
            [token, ..] => tokens::unary_operator(token).is_some(),
            [] => false,
        }
    }

    /// Whether `++` or `--` is next.
    pub fn sees_direction(&self) -> bool
        ensures { result ≡ sees tokens_of.is_direction self.now }
    {
        match self.rest {
            [token, ..] => tokens::direction(token).is_some(),
            [] => false,
        }
    }

    /// Whether a binary operator of the level is next.
    pub fn binds_at(&self, level: usize) -> bool
        ensures { result ≡ sees (tokens_of.binds_at level) self.now }
    {
        match self.rest {
            [token, ..] => tokens::operator_at(level, token).is_some(),
            [] => false,
        }
    }

    /// Whether the next token can begin a cast expression (C99 6.5.4).
    pub fn begins_cast(&self) -> bool
        ensures { result ≡ sees spec.begins_cast self.now }
    {
        match self.rest {
            [token, ..] => tokens::begins_cast(token),
            [] => false,
        }
    }

    /// Whether the next token can begin a value of an initializer, or several in braces (C99 6.7.8).
    pub fn begins_initial(&self) -> bool
        ensures { result ≡ sees spec.begins_initial self.now }
    {
        match self.rest {
            [token, ..] => tokens::begins_initial(token),
            [] => false,
        }
    }

    /// Whether a brace or a parenthesis opens next.
    #[tactic(auto, unfolding(c_tree::specs::Tokens::same_punctuator))]
    pub fn opens_initial(&self) -> bool
        ensures { result ≡ sees spec.opens_initial self.now }
    {
        match self.rest {
            [token, ..] => matches!(
                &token.kind,
                Kind::Punctuator(Punctuator::OpenCurly | Punctuator::OpenRound)
            ),
            [] => false,
        }
    }

    /// Whether the next token can begin an argument of a call.
    #[tactic(auto, unfolding(c_tree::specs::Tokens::same_keyword, c_tree::specs::Tokens::same_punctuator))]
    pub fn begins_argument(&self) -> bool
        ensures { result ≡ sees spec.begins_argument self.now }
    {
        match self.rest {
            [token, ..] => {
                tokens::begins_cast(token)
                    || matches!(
                        &token.kind,
                        Kind::StringLiteral(_)
                            | Kind::Punctuator(Punctuator::And)
                            | Kind::Keyword(Keyword::Null)
                    )
            }
            [] => false,
        }
    }

    /// Whether the next token can begin an assignment, a step or a call as a statement.
    pub fn begins_simple(&self) -> bool
        ensures { result ≡ sees spec.begins_simple self.now }
    {
        match self.rest {
            [token, ..] => matches!(
                &token.kind,
                Kind::Name(_) | Kind::Punctuator(Punctuator::PlusPlus | Punctuator::MinusMinus)
            ),
            [] => false,
        }
    }

    /// Whether the next token can begin a statement with statements inside.
    pub fn begins_compound(&self) -> bool
        ensures { result ≡ sees spec.begins_compound self.now }
    {
        match self.rest {
            [token, ..] => tokens::begins_compound(token),
            [] => false,
        }
    }

    /// Whether the next token can begin a statement (C99 6.8).
    pub fn begins_statement(&self) -> bool
        ensures { result ≡ sees spec.begins_statement self.now }
    {
        match self.rest {
            [token, ..] => tokens::begins_statement(token),
            [] => false,
        }
    }

    /// Whether `case` or `default` is next (C99 6.8.1).
    #[tactic(auto, unfolding(c_tree::specs::Tokens::same_keyword))]
    pub fn begins_label(&self) -> bool
        ensures { result ≡ sees spec.begins_label self.now }
    {
        match self.rest {
            [token, ..] => matches!(&token.kind, Kind::Keyword(Keyword::Case | Keyword::Default)),
            [] => false,
        }
    }

    /// Whether the next token can begin an item of a block (C99 6.8.2).
    pub fn begins_item(&self) -> bool
        ensures { result ≡ sees spec.begins_item self.now }
    {
        match self.rest {
            [token, ..] => tokens::type_word(token).is_some() || tokens::begins_statement(token),
            [] => false,
        }
    }
}

/// A fact of the next tokens.
impl<'a> Cursor<'a> {
    /// `(` and a type.
    pub fn begins_conversion(&self) -> bool
        ensures { result ≡ sees_all (tokens_of.is (Sign.Mark Punctuator.OpenRound) ∷ tokens_of.is_type_word ∷ []) self.now }
    {
        match self.rest {
            [first, second, ..] => {
                tokens::is(first, Sign::Mark(Punctuator::OpenRound))
                    && tokens::type_word(second).is_some()
            }
            _ => false,
        }
    }

    /// `(void *`
    pub fn begins_conversion_to_pointer(&self) -> bool
        ensures { result ≡ sees_all (tokens_of.is (Sign.Mark Punctuator.OpenRound) ∷ tokens_of.is (Sign.Word Keyword.Void) ∷ tokens_of.is (Sign.Mark Punctuator.Star) ∷ []) self.now }
    {
        match self.rest {
            [first, second, third, ..] => {
                tokens::is(first, Sign::Mark(Punctuator::OpenRound))
                    && tokens::is(second, Sign::Word(Keyword::Void))
                    && tokens::is(third, Sign::Mark(Punctuator::Star))
            }
            _ => false,
        }
    }

    /// A comma, and a value of an initializer or several in braces.
    pub fn begins_next_initial(&self) -> bool
        ensures { result ≡ sees_all (tokens_of.is (Sign.Mark Punctuator.Comma) ∷ spec.begins_initial ∷ []) self.now }
    {
        match self.rest {
            [first, second, ..] => {
                tokens::is(first, Sign::Mark(Punctuator::Comma)) && tokens::begins_initial(second)
            }
            _ => false,
        }
    }
}

/// Taking a token.
impl<'a> Cursor<'a> {
    /// Takes the sign, and gives its place in the text.
    #[tactic(auto, unfolding(c_reading::specs::Tokens::expect))]
    pub fn expect(&mut self, sign: Sign) -> Result<usize, Fault>
        ensures { Steps (spec.expect sign self.old) result self.new }
    {
        match self.rest {
            [token, rest @ ..] if tokens::is(token, sign) => {
                self.rest = rest;
                Ok(token.offset)
            }
            _ => Err(Fault::Syntax),
        }
    }

    /// Takes the punctuator, and gives its place. `Syntax` where another token is next.
    pub fn mark(&mut self, mark: Punctuator) -> Result<usize, Fault>
        ensures { Steps (spec.expect (Sign.Mark mark) self.old) result self.new }
    {
        self.expect(Sign::Mark(mark))
    }

    /// Takes the keyword, and gives its place. `Syntax` where another token is next.
    pub fn word(&mut self, word: Keyword) -> Result<usize, Fault>
        ensures { Steps (spec.expect (Sign.Word word) self.old) result self.new }
    {
        self.expect(Sign::Word(word))
    }

    /// Takes an identifier with its place. `Syntax` where another token is next.
    #[tactic(auto, unfolding(c_reading::specs::Tokens::read_name))]
    pub fn name(&mut self, alloc: Global) -> Result<Name, Fault>
        ensures { Steps (spec.read_name self.old) result self.new }
    {
        let [token, rest @ ..] = self.rest else {
            return Err(Fault::Syntax);
        };
        let Kind::Name(bytes) = &token.kind else {
            return Err(Fault::Syntax);
        };
        self.rest = rest;
        Ok(Name {
            bytes: Items::from_slice(alloc, bytes.as_slice())?,
            offset: token.offset,
        })
    }

    /// The bytes of a string literal and its place.
    #[tactic(auto, unfolding(c_reading::specs::Tokens::read_text))]
    pub fn text(&mut self, alloc: Global) -> Result<(Items<u8>, usize), Fault>
        ensures { Steps (spec.read_text self.old) result self.new }
    {
        let [token, rest @ ..] = self.rest else {
            return Err(Fault::Syntax);
        };
        let Kind::StringLiteral(bytes) = &token.kind else {
            return Err(Fault::Syntax);
        };
        self.rest = rest;
        Ok((Items::from_slice(alloc, bytes.as_slice())?, token.offset))
    }

    /// Takes a constant as an expression. `Syntax` where another token is next.
    #[tactic(auto, unfolding(c_reading::specs::Tokens::read_constant))]
    pub fn constant(&mut self) -> Result<Expression, Fault>
        ensures { Steps (spec.read_constant self.old) result self.new }
    {
        let [token, rest @ ..] = self.rest else {
            return Err(Fault::Syntax);
        };
        let Kind::Constant(constant) = &token.kind else {
            return Err(Fault::Syntax);
        };
        self.rest = rest;
        Ok(Expression {
            offset: token.offset,
            form: Form::Constant(*constant, token.offset),
        })
    }

    /// A word of a type and its place.
    #[tactic(auto, unfolding(c_reading::specs::Tokens::read_first_word))]
    pub fn first_word(&mut self) -> Result<(TypeWord, usize), Fault>
        ensures { Steps (spec.read_first_word self.old) result self.new }
    {
        let [token, rest @ ..] = self.rest else {
            return Err(Fault::Syntax);
        };
        let Some(word) = tokens::type_word(token) else {
            return Err(Fault::Syntax);
        };
        self.rest = rest;
        Ok((word, token.offset))
    }

    /// A binary operator of the level and its place.
    #[tactic(auto, unfolding(c_reading::specs::Tokens::read_operator))]
    pub fn operator(&mut self, level: usize) -> Result<(BinaryOperator, usize), Fault>
        ensures { Steps (spec.read_operator level self.old) result self.new }
    {
        let [token, rest @ ..] = self.rest else {
            return Err(Fault::Syntax);
        };
        let Some(operator) = tokens::operator_at(level, token) else {
            return Err(Fault::Syntax);
        };
        self.rest = rest;
        Ok((operator, token.offset))
    }

    /// Takes a word of a type. `Syntax` where another token is next.
    #[tactic(auto, unfolding(c_reading::specs::Tokens::read_type_word))]
    pub fn type_word(&mut self) -> Result<TypeWord, Fault>
        ensures { Steps (spec.read_type_word self.old) result self.new }
    {
        let [token, rest @ ..] = self.rest else {
            return Err(Fault::Syntax);
        };
        let Some(word) = tokens::type_word(token) else {
            return Err(Fault::Syntax);
        };
        self.rest = rest;
        Ok(word)
    }

    /// A unary operator and its place.
    #[tactic(auto, unfolding(c_reading::specs::Tokens::read_unary_operator))]
    pub fn unary_operator(&mut self) -> Result<(UnaryOperator, usize), Fault>
        ensures { Steps (spec.read_unary_operator self.old) result self.new }
    {
        let [token, rest @ ..] = self.rest else {
            return Err(Fault::Syntax);
        };
        let Some(operator) = tokens::unary_operator(token) else {
            return Err(Fault::Syntax);
        };
        self.rest = rest;
        Ok((operator, token.offset))
    }

    /// Takes `=` or a compound operator (C99 6.5.16). `Syntax` where another token is next.
    #[tactic(auto, unfolding(c_reading::specs::Tokens::read_assignment_operator))]
    pub fn assignment_operator(&mut self) -> Result<AssignmentOperator, Fault>
        ensures { Steps (spec.read_assignment_operator self.old) result self.new }
    {
        let [token, rest @ ..] = self.rest else {
            return Err(Fault::Syntax);
        };
        let Some(operator) = tokens::assignment_operator(token) else {
            return Err(Fault::Syntax);
        };
        self.rest = rest;
        Ok(operator)
    }

    /// `++` or `--`, and its place.
    #[tactic(auto, unfolding(c_reading::specs::Tokens::read_direction))]
    pub fn direction(&mut self) -> Result<(Direction, usize), Fault>
        ensures { Steps (spec.read_direction self.old) result self.new }
    {
        let [token, rest @ ..] = self.rest else {
            return Err(Fault::Syntax);
        };
        let Some(direction) = tokens::direction(token) else {
            return Err(Fault::Syntax);
        };
        self.rest = rest;
        Ok((direction, token.offset))
    }

    /// `++` or `--`
    #[tactic(auto, unfolding(c_reading::specs::Tokens::read_way))]
    pub fn way(&mut self) -> Result<Direction, Fault>
        ensures { Steps (spec.read_way self.old) result self.new }
    {
        let [token, rest @ ..] = self.rest else {
            return Err(Fault::Syntax);
        };
        let Some(direction) = tokens::direction(token) else {
            return Err(Fault::Syntax);
        };
        self.rest = rest;
        Ok(direction)
    }
}
