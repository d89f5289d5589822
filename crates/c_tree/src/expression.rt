// Expressions (C99 6.5), with the calls, places and pointers that stand in them. Parentheses leave no node.
//
// The operators of one level that group from left to right are one node with a list, and so are conditionals that
// stand in one another's second operand: a tree is never deeper than its text is nested, but for the ten levels.

use c_token::Constant;
use sqlite_items::{Boxed, Items};

/// A name where it stands.
pub struct Name {
    pub bytes: Items<u8>,
    /// Of its first byte.
    pub offset: usize,
}

/// A word of a type: a type specifier, a storage class or a qualifier (C99 6.7).
#[derive(Clone, Copy, PartialEq, Eq)]
pub enum TypeWord {
    Static,
    Const,
    Void,
    Char,
    Short,
    Int,
    Long,
    Signed,
    Unsigned,
    /// `pthread_t`
    ThreadId,
    /// `pthread_mutex_t`
    Mutex,
    /// `pthread_barrier_t`
    Barrier,
}

/// One or more words, as they are written: not each combination is a type.
pub struct Specifiers {
    pub words: Items<TypeWord>,
    /// Of the first word.
    pub offset: usize,
}

/// A unary operator (C99 6.5.3.3).
#[derive(Clone, Copy)]
pub enum UnaryOperator {
    Plus,
    Minus,
    /// `~`
    Complement,
    /// `!`
    Not,
}

/// A binary operator, `&&` and `||` among them.
#[derive(Clone, Copy)]
pub enum BinaryOperator {
    /// `||`
    LogicalOr,
    /// `&&`
    LogicalAnd,
    BitOr,
    BitXor,
    BitAnd,
    Equal,
    NotEqual,
    Less,
    Greater,
    LessEqual,
    GreaterEqual,
    ShiftLeft,
    ShiftRight,
    Add,
    Subtract,
    Multiply,
    Divide,
    Remainder,
}

/// An expression and where it begins.
#[cycle(expressions)]
#[derive(Drop)]
pub struct Expression {
    /// Of the first byte of its text: of `(a)` that of the parenthesis.
    pub offset: usize,
    pub form: Form,
}

/// What an expression is made of.
#[cycle(expressions)]
#[derive(Drop)]
pub enum Form {
    /// A constant and the place of its first byte.
    Constant(Constant, usize),
    /// The value of a place.
    Place(Place),
    /// The value of a call.
    Call(Call),
    Unary(UnaryOperator, Boxed<Expression>),
    /// A conversion to the type.
    Cast(Specifiers, Boxed<Expression>),
    /// Operators of one level, from left to right: each joins what stands before it and its own operand.
    Binary(Boxed<Expression>, Items<Term>),
    /// The value where each condition holds, and the choices from the innermost to the outermost: each gives what
    /// stands before it, or else its own operand. `a ? b ? x : y : z` is x with the choices (b, y) and (a, z).
    Conditional(Boxed<Expression>, Items<Choice>),
}

/// An operator and its right operand.
#[cycle(expressions)]
#[derive(Drop)]
pub struct Term {
    pub operator: BinaryOperator,
    /// Of the operator.
    pub offset: usize,
    pub operand: Expression,
}

/// A condition with its `?`, and the third operand.
#[cycle(expressions)]
#[derive(Drop)]
pub struct Choice {
    pub condition: Expression,
    /// Of the `?`.
    pub offset: usize,
    pub otherwise: Expression,
}

/// An object, or an element of one (C99 6.5.2.1).
#[cycle(expressions)]
#[derive(Drop)]
pub struct Place {
    pub name: Name,
    /// What stands in each pair of brackets (C99 6.5.2.1), from left to right; at most three.
    pub indices: Items<Expression>,
}

/// A call by the called name (C99 6.5.2.2).
#[cycle(expressions)]
#[derive(Drop)]
pub struct Call {
    pub name: Name,
    pub arguments: Items<Argument>,
}

/// An argument of a call.
#[cycle(expressions)]
#[derive(Drop)]
pub enum Argument {
    Value(Boxed<Expression>),
    /// The bytes between the quotes of a string literal as they are written, and the place of its first quote.
    Text(Items<u8>, usize),
    /// `&` and a place, and the place of the `&` in the text.
    Address(Place, usize),
    Pointer(Pointer),
}

/// A pointer to void.
#[cycle(expressions)]
#[derive(Drop)]
pub struct Pointer {
    /// The operand of `(void *)`; none for `NULL`.
    pub operand: Option<Boxed<Expression>>,
    /// Of its first byte.
    pub offset: usize,
}

// A drop that is written here is proved here; a derived one is proved again in each crate that drops the type.

impl Drop for Name {
    fn drop(self) {
        let Name {
            bytes: _,
            offset: _,
        } = self;
    }
}

impl Drop for Specifiers {
    fn drop(self) {
        let Specifiers {
            words: _,
            offset: _,
        } = self;
    }
}
