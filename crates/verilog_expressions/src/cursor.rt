// A cursor over tokens.

ghost use Rattle.std.specs.Prelude.{List, ◌≡◌, length, drop, Ok, Err, if◌then◌else◌};
ghost use Rattle.verilog_tree.specs.declared.token.Token.{Token};
ghost use Rattle.grammar.specs.Readers.{sees, Syntax};
ghost use Rattle.grammar.specs.Steps.{Steps};
ghost use Rattle.verilog_rules.specs.Reading as spec;
ghost use Rattle.verilog_rules.specs.Signs as signs;

use grammar::Fault;
use std::marker::Model;
use verilog_rules::sign::Sign;
use verilog_tree::name::{Identifier, Quoted};
use verilog_tree::token::{Mark, Token, Word};
use verilog_tree::tree::{BinaryOperator, Direction, DivisionOperator};

/// Whether the token is of the sign.
#[tactic(auto, unfolding(verilog_rules::specs::Signs::same_word, verilog_rules::specs::Signs::same_mark))]
fn is(sign: Sign, token: &Token) -> bool
    ensures { result ≡ signs.is sign token.now }
{
    match (sign, token) {
        (Sign::Word(word), Token::Word(found)) => word == *found,
        (Sign::Mark(mark), Token::Mark(found)) => mark == *found,
        (Sign::Zero, Token::Number(number)) => *number == 0,
        (Sign::Clock, Token::Name(name)) => name.as_str() == "clk",
        _ => false,
    }
}

fn is_name(token: &Token) -> bool
    ensures { result ≡ signs.is_name token.now }
{
    matches!(token, Token::Name(_))
}

fn operator_of(mark: Mark) -> Option<BinaryOperator>
    ensures { result ≡ signs.operator_of mark }
{
    match mark {
        Mark::Plus => Some(BinaryOperator::Add),
        Mark::Minus => Some(BinaryOperator::Subtract),
        Mark::Star => Some(BinaryOperator::Multiply),
        Mark::And => Some(BinaryOperator::And),
        Mark::Or => Some(BinaryOperator::Or),
        Mark::Xor => Some(BinaryOperator::Xor),
        Mark::EqualEqual => Some(BinaryOperator::Equal),
        Mark::Less => Some(BinaryOperator::Less),
        Mark::ShiftLeft => Some(BinaryOperator::ShiftLeft),
        Mark::ShiftRight => Some(BinaryOperator::ShiftRight),
        _ => None,
    }
}

fn division_of(mark: Mark) -> Option<DivisionOperator>
    ensures { result ≡ signs.division_of mark }
{
    match mark {
        Mark::Slash => Some(DivisionOperator::Quotient),
        Mark::Percent => Some(DivisionOperator::Remainder),
        _ => None,
    }
}

fn direction_of(word: Word) -> Option<Direction>
    ensures { result ≡ signs.direction_of word }
{
    match word {
        Word::Input => Some(Direction::Input),
        Word::Output => Some(Direction::Output),
        _ => None,
    }
}

/// The tokens that are not read yet. Contracts see them.
#[derive(Drop)]
pub struct Cursor<'a> {
    rest: &'a [Token],
}

impl<'a> Model for Cursor<'a> {
    ghost Value = { List Token };

    ghost view = { λ c. c.rest.now };
}

/// A fact of the next token.
impl<'a> Cursor<'a> {
    /// A cursor before the first of the tokens.
    pub fn new(tokens: &'a [Token]) -> Cursor<'a>
        ensures { result ≡ tokens.now }
    {
        Cursor { rest: tokens }
    }

    /// How many tokens are left.
    pub fn left(&self) -> usize
        ensures { result ≡ length self.now }
    {
        self.rest.len()
    }

    /// Whether the sign is next.
    pub fn sees(&self, sign: Sign) -> bool
        ensures { result ≡ sees (signs.is sign) self.now }
    {
        match self.rest {
            [token, ..] => is(sign, token),
            [] => false,
        }
    }

    /// Whether the mark is next.
    pub fn sees_mark(&self, mark: Mark) -> bool
        ensures { result ≡ sees (signs.is (Sign.Mark mark)) self.now }
    {
        self.sees(Sign::Mark(mark))
    }

    /// Whether the keyword is next.
    pub fn sees_word(&self, word: Word) -> bool
        ensures { result ≡ sees (signs.is (Sign.Word word)) self.now }
    {
        self.sees(Sign::Word(word))
    }

    /// Whether an identifier is next (IEEE 1364-2005 section 3.7).
    pub fn sees_name(&self) -> bool
        ensures { result ≡ sees signs.is_name self.now }
    {
        match self.rest {
            [token, ..] => is_name(token),
            [] => false,
        }
    }

    /// Whether a number is next.
    pub fn sees_number(&self) -> bool
        ensures { result ≡ sees signs.is_number self.now }
    {
        match self.rest {
            [token, ..] => matches!(token, Token::Number(_)),
            [] => false,
        }
    }

    /// Whether a binary operator is next.
    pub fn sees_operator(&self) -> bool
        ensures { result ≡ sees signs.is_operator self.now }
    {
        match self.rest {
            [token, ..] => match token {
                Token::Mark(mark) => operator_of(*mark).is_some(),
                _ => false,
            },
            [] => false,
        }
    }

    /// Whether the next token can begin a statement.
    pub fn begins_statement(&self) -> bool
        ensures { result ≡ sees spec.begins_statement self.now }
    {
        match self.rest {
            [token, ..] => {
                is(Sign::Word(Word::If), token)
                    || is_name(token)
                    || is(Sign::Mark(Mark::Write), token)
            }
            [] => false,
        }
    }

    /// Whether the next token can begin an item of a module.
    pub fn begins_item(&self) -> bool
        ensures { result ≡ sees spec.begins_item self.now }
    {
        match self.rest {
            [token, ..] => {
                is(Sign::Word(Word::Wire), token)
                    || is(Sign::Word(Word::Reg), token)
                    || is(Sign::Word(Word::Assign), token)
                    || is(Sign::Word(Word::Initial), token)
                    || is(Sign::Word(Word::Always), token)
                    || is_name(token)
            }
            [] => false,
        }
    }
}

/// Taking a token.
impl<'a> Cursor<'a> {
    /// Takes the sign. `Syntax` where another token is next.
    #[tactic(auto, unfolding(verilog_rules::specs::Reading::expect))]
    pub fn expect(&mut self, sign: Sign) -> Result<(), Fault>
        ensures { Steps (spec.expect sign self.old) result self.new }
    {
        match self.rest {
            [token, rest @ ..] if is(sign, token) => {
                self.rest = rest;
                Ok(())
            }
            _ => Err(Fault::Syntax),
        }
    }

    /// Takes the mark. `Syntax` where another token is next.
    pub fn mark(&mut self, mark: Mark) -> Result<(), Fault>
        ensures { Steps (spec.expect (Sign.Mark mark) self.old) result self.new }
    {
        self.expect(Sign::Mark(mark))
    }

    /// Takes the mark where it is next, and says whether it is.
    #[tactic(auto, unfolding(verilog_rules::specs::Reading::expect))]
    pub fn takes_mark(&mut self, mark: Mark) -> bool
        ensures sees { result ≡ sees (signs.is (Sign.Mark mark)) self.old }
        ensures read { spec.expect (Sign.Mark mark) self.old ≡ (if result then Ok (tt, self.new) else Err (Syntax self.old)) }
        ensures rest { self.new ≡ (if result then drop 1 self.old else self.old) }
    {
        match self.rest {
            [token, rest @ ..] if is(Sign::Mark(mark), token) => {
                self.rest = rest;
                true
            }
            _ => false,
        }
    }

    /// Takes the keyword. `Syntax` where another token is next.
    pub fn word(&mut self, word: Word) -> Result<(), Fault>
        ensures { Steps (spec.expect (Sign.Word word) self.old) result self.new }
    {
        self.expect(Sign::Word(word))
    }

    /// Takes an identifier. `Syntax` where another token is next.
    #[tactic(auto, unfolding(verilog_rules::specs::Reading::read_name))]
    pub fn name(&mut self) -> Result<Identifier, Fault>
        ensures { Steps (spec.read_name self.old) result self.new }
    {
        match self.rest {
            [Token::Name(name), rest @ ..] => {
                self.rest = rest;
                Ok(name.clone()?)
            }
            _ => Err(Fault::Syntax),
        }
    }

    /// Takes a number. `Syntax` where another token is next.
    #[tactic(auto, unfolding(verilog_rules::specs::Reading::read_number))]
    pub fn number(&mut self) -> Result<u64, Fault>
        ensures { Steps (spec.read_number self.old) result self.new }
    {
        match self.rest {
            [Token::Number(number), rest @ ..] => {
                self.rest = rest;
                Ok(*number)
            }
            _ => Err(Fault::Syntax),
        }
    }

    /// Takes a string. `Syntax` where another token is next.
    #[tactic(auto, unfolding(verilog_rules::specs::Reading::read_quoted))]
    pub fn quoted(&mut self) -> Result<Quoted, Fault>
        ensures { Steps (spec.read_quoted self.old) result self.new }
    {
        match self.rest {
            [Token::Quoted(text), rest @ ..] => {
                self.rest = rest;
                Ok(text.clone()?)
            }
            _ => Err(Fault::Syntax),
        }
    }

    /// Takes a binary operator other than those of division. `Syntax` where another token is next.
    #[tactic(auto, unfolding(verilog_rules::specs::Reading::read_operator))]
    pub fn operator(&mut self) -> Result<BinaryOperator, Fault>
        ensures { Steps (spec.read_operator self.old) result self.new }
    {
        let [token, rest @ ..] = self.rest else {
            return Err(Fault::Syntax);
        };
        let Token::Mark(mark) = token else {
            return Err(Fault::Syntax);
        };
        let Some(operator) = operator_of(*mark) else {
            return Err(Fault::Syntax);
        };
        self.rest = rest;
        Ok(operator)
    }

    /// Takes `/` or `%`. `Syntax` where another token is next.
    #[tactic(auto, unfolding(verilog_rules::specs::Reading::read_division))]
    pub fn division(&mut self) -> Result<DivisionOperator, Fault>
        ensures { Steps (spec.read_division self.old) result self.new }
    {
        let [token, rest @ ..] = self.rest else {
            return Err(Fault::Syntax);
        };
        let Token::Mark(mark) = token else {
            return Err(Fault::Syntax);
        };
        let Some(operator) = division_of(*mark) else {
            return Err(Fault::Syntax);
        };
        self.rest = rest;
        Ok(operator)
    }

    /// Takes `input` or `output`. `Syntax` where another token is next.
    #[tactic(auto, unfolding(verilog_rules::specs::Reading::read_direction))]
    pub fn direction(&mut self) -> Result<Direction, Fault>
        ensures { Steps (spec.read_direction self.old) result self.new }
    {
        let [token, rest @ ..] = self.rest else {
            return Err(Fault::Syntax);
        };
        let Token::Word(word) = token else {
            return Err(Fault::Syntax);
        };
        let Some(direction) = direction_of(*word) else {
            return Err(Fault::Syntax);
        };
        self.rest = rest;
        Ok(direction)
    }
}
