// What single tokens give to the grammar.

ghost use Rattle.std.specs.Prelude.{◌≡◌};
ghost use Rattle.c_tree.specs.Tokens as spec;
ghost use Rattle.c_reading.specs.Tokens as begins;

use c_token::{Keyword, Kind, Punctuator, Token};
use c_tree::{AssignmentOperator, BinaryOperator, Direction, Sign, TypeWord, UnaryOperator};

/// Whether the token is of the sign.
#[tactic(auto, unfolding(c_tree::specs::Tokens::same_keyword, c_tree::specs::Tokens::same_punctuator))]
pub fn is(token: &Token, sign: Sign) -> bool
    ensures { result ≡ spec.is sign token.now }
{
    match (&token.kind, sign) {
        (Kind::Keyword(found), Sign::Word(word)) => word == *found,
        (Kind::Punctuator(found), Sign::Mark(mark)) => mark == *found,
        (Kind::End, Sign::End) => true,
        _ => false,
    }
}

pub fn type_word(token: &Token) -> Option<TypeWord>
    ensures { result ≡ spec.type_word_at token.now }
{
    match &token.kind {
        Kind::Keyword(Keyword::Static) => Some(TypeWord::Static),
        Kind::Keyword(Keyword::Const) => Some(TypeWord::Const),
        Kind::Keyword(Keyword::Void) => Some(TypeWord::Void),
        Kind::Keyword(Keyword::Char) => Some(TypeWord::Char),
        Kind::Keyword(Keyword::Short) => Some(TypeWord::Short),
        Kind::Keyword(Keyword::Int) => Some(TypeWord::Int),
        Kind::Keyword(Keyword::Long) => Some(TypeWord::Long),
        Kind::Keyword(Keyword::Signed) => Some(TypeWord::Signed),
        Kind::Keyword(Keyword::Unsigned) => Some(TypeWord::Unsigned),
        Kind::Keyword(Keyword::ThreadId) => Some(TypeWord::ThreadId),
        Kind::Keyword(Keyword::Mutex) => Some(TypeWord::Mutex),
        Kind::Keyword(Keyword::Barrier) => Some(TypeWord::Barrier),
        _ => None,
    }
}

pub fn unary_operator(token: &Token) -> Option<UnaryOperator>
    ensures { result ≡ spec.unary_of token.now }
{
    match &token.kind {
        Kind::Punctuator(Punctuator::Plus) => Some(UnaryOperator::Plus),
        Kind::Punctuator(Punctuator::Minus) => Some(UnaryOperator::Minus),
        Kind::Punctuator(Punctuator::Tilde) => Some(UnaryOperator::Complement),
        Kind::Punctuator(Punctuator::Exclamation) => Some(UnaryOperator::Not),
        _ => None,
    }
}

/// How tightly a binary operator binds, the tightest first, and which one it is.
fn binding(mark: Punctuator) -> Option<(usize, BinaryOperator)>
    ensures { result ≡ spec.binding mark }
{
    match mark {
        Punctuator::Star => Some((1, BinaryOperator::Multiply)),
        Punctuator::Slash => Some((1, BinaryOperator::Divide)),
        Punctuator::Percent => Some((1, BinaryOperator::Remainder)),
        Punctuator::Plus => Some((2, BinaryOperator::Add)),
        Punctuator::Minus => Some((2, BinaryOperator::Subtract)),
        Punctuator::ShiftLeft => Some((3, BinaryOperator::ShiftLeft)),
        Punctuator::ShiftRight => Some((3, BinaryOperator::ShiftRight)),
        Punctuator::Less => Some((4, BinaryOperator::Less)),
        Punctuator::Greater => Some((4, BinaryOperator::Greater)),
        Punctuator::LessEqual => Some((4, BinaryOperator::LessEqual)),
        Punctuator::GreaterEqual => Some((4, BinaryOperator::GreaterEqual)),
        Punctuator::EqualEqual => Some((5, BinaryOperator::Equal)),
        Punctuator::NotEqual => Some((5, BinaryOperator::NotEqual)),
        Punctuator::And => Some((6, BinaryOperator::BitAnd)),
        Punctuator::Xor => Some((7, BinaryOperator::BitXor)),
        Punctuator::Or => Some((8, BinaryOperator::BitOr)),
        Punctuator::AndAnd => Some((9, BinaryOperator::LogicalAnd)),
        Punctuator::OrOr => Some((10, BinaryOperator::LogicalOr)),
        _ => None,
    }
}

/// The binary operator that the token is at the level.
pub fn operator_at(level: usize, token: &Token) -> Option<BinaryOperator>
    ensures { result ≡ spec.binary_of level token.now }
{
    let Kind::Punctuator(mark) = &token.kind else {
        return None;
    };
    match binding(*mark) {
        Some((bound, operator)) if bound == level => Some(operator),
        _ => None,
    }
}

pub fn assignment_operator(token: &Token) -> Option<AssignmentOperator>
    ensures { result ≡ spec.assignment_at token.now }
{
    let Kind::Punctuator(mark) = &token.kind else {
        return None;
    };
    match mark {
        Punctuator::Assign => Some(AssignmentOperator::Set),
        Punctuator::StarAssign => Some(AssignmentOperator::Compound(BinaryOperator::Multiply)),
        Punctuator::SlashAssign => Some(AssignmentOperator::Compound(BinaryOperator::Divide)),
        Punctuator::PercentAssign => Some(AssignmentOperator::Compound(BinaryOperator::Remainder)),
        Punctuator::PlusAssign => Some(AssignmentOperator::Compound(BinaryOperator::Add)),
        Punctuator::MinusAssign => Some(AssignmentOperator::Compound(BinaryOperator::Subtract)),
        Punctuator::ShiftLeftAssign => Some(AssignmentOperator::Compound(
            BinaryOperator::ShiftLeft,
        )),
        Punctuator::ShiftRightAssign => Some(AssignmentOperator::Compound(
            BinaryOperator::ShiftRight,
        )),
        Punctuator::AndAssign => Some(AssignmentOperator::Compound(BinaryOperator::BitAnd)),
        Punctuator::XorAssign => Some(AssignmentOperator::Compound(BinaryOperator::BitXor)),
        Punctuator::OrAssign => Some(AssignmentOperator::Compound(BinaryOperator::BitOr)),
        _ => None,
    }
}

pub fn direction(token: &Token) -> Option<Direction>
    ensures { result ≡ spec.direction_of token.now }
{
    match &token.kind {
        Kind::Punctuator(Punctuator::PlusPlus) => Some(Direction::Up),
        Kind::Punctuator(Punctuator::MinusMinus) => Some(Direction::Down),
        _ => None,
    }
}

/// Whether the token begins an operand: a unary operator, a name, a constant or a parenthesis.
#[tactic(auto, unfolding(c_tree::specs::Tokens::same_punctuator))]
pub fn begins_cast(token: &Token) -> bool
    ensures { result ≡ begins.begins_cast token.now }
{
    match &token.kind {
        Kind::Name(_) | Kind::Constant(_) => true,
        Kind::Punctuator(
            Punctuator::Plus
            | Punctuator::Minus
            | Punctuator::Tilde
            | Punctuator::Exclamation
            | Punctuator::OpenRound,
        ) => true,
        _ => false,
    }
}

/// Whether the token begins a value of an initializer, or several in braces.
#[tactic(auto, unfolding(c_tree::specs::Tokens::same_punctuator))]
pub fn begins_initial(token: &Token) -> bool
    ensures { result ≡ begins.begins_initial token.now }
{
    match &token.kind {
        Kind::Punctuator(Punctuator::OpenCurly) => true,
        _ => begins_cast(token),
    }
}

/// Whether the token begins a block or a control statement.
#[tactic(auto, unfolding(c_tree::specs::Tokens::same_keyword, c_tree::specs::Tokens::same_punctuator))]
pub fn begins_compound(token: &Token) -> bool
    ensures { result ≡ begins.begins_compound token.now }
{
    match &token.kind {
        Kind::Punctuator(Punctuator::OpenCurly) => true,
        Kind::Keyword(
            Keyword::If | Keyword::While | Keyword::Do | Keyword::For | Keyword::Switch,
        ) => true,
        _ => false,
    }
}

#[tactic(auto, unfolding(c_tree::specs::Tokens::same_keyword, c_tree::specs::Tokens::same_punctuator))]
pub fn begins_statement(token: &Token) -> bool
    ensures { result ≡ begins.begins_statement token.now }
{
    match &token.kind {
        Kind::Name(_) => true,
        Kind::Punctuator(Punctuator::Semicolon | Punctuator::PlusPlus | Punctuator::MinusMinus) => {
            true
        }
        Kind::Keyword(Keyword::Break | Keyword::Continue | Keyword::Return) => true,
        _ => begins_compound(token),
    }
}
