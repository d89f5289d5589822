// Statements (C99 6.8).

use crate::declaration::Declaration;
use crate::expression::{BinaryOperator, Call, Expression, Place, Pointer};
use sqlite_items::{Boxed, Items};

/// `=`, or a compound assignment by its binary operator.
#[derive(Clone, Copy)]
pub enum AssignmentOperator {
    Set,
    Compound(BinaryOperator),
}

/// Up for `++`, down for `--`.
#[derive(Clone, Copy)]
pub enum Direction {
    Up,
    Down,
}

/// What stands as a statement by itself, or in the head of a `for`.
pub struct SimpleStatement {
    pub form: SimpleForm,
    /// Of its first byte.
    pub offset: usize,
}

/// What a simple statement is made of.
pub enum SimpleForm {
    Assign(Place, AssignmentOperator, Boxed<Expression>),
    /// `++` or `--`, before the place or behind it.
    Step(Place, Direction),
    Call(Call),
}

/// What a `return` gives back.
pub enum Returned {
    Nothing,
    Value(Boxed<Expression>),
    Pointer(Pointer),
}

/// What the head of a `for` begins with.
pub enum ForStart {
    Nothing,
    Declaration(Declaration),
    Simple(Boxed<SimpleStatement>),
}

/// `case` and its value, or `default` (C99 6.8.1).
pub struct CaseLabel {
    /// None of `default`.
    pub value: Option<Boxed<Expression>>,
    /// Of the word.
    pub offset: usize,
}

/// `{`, declarations and statements, `}`.
#[cycle(statements)]
#[derive(Drop)]
pub struct Block {
    pub items: Items<BlockItem>,
    /// Of the closing brace.
    pub close: usize,
}

/// An item of a block (C99 6.8.2).
#[cycle(statements)]
#[derive(Drop)]
pub enum BlockItem {
    Declaration(Declaration),
    Statement(Statement),
}

/// The numbers are the places of the first words, `if` and so on.
#[cycle(statements)]
#[derive(Drop)]
pub enum Statement {
    Block(Block),
    /// `;`
    Empty,
    Simple(Boxed<SimpleStatement>),
    Break(usize),
    Continue(usize),
    /// The condition, the statement where it holds, and the one behind `else`.
    If(Boxed<Expression>, Boxed<Statement>, Option<Boxed<Statement>>),
    While(Boxed<Expression>, Boxed<Statement>),
    /// `do` the statement `while` the condition holds.
    DoWhile(Boxed<Statement>, Boxed<Expression>),
    /// The start, the condition, the step and the body.
    For(
        Boxed<ForStart>,
        Option<Boxed<Expression>>,
        Option<Boxed<SimpleStatement>>,
        Boxed<Statement>,
    ),
    Return(Returned, usize),
    /// `switch`: what it goes by, the groups between its braces, and the place of the word (C99 6.8.4.2).
    Switch(Boxed<Expression>, Items<Group>, usize),
}

/// A label of a switch, and the statements behind it up to the next one; none where labels stand one behind the other.
#[cycle(statements)]
#[derive(Drop)]
pub struct Group {
    pub label: CaseLabel,
    pub statements: Items<Statement>,
}

// A drop that is written here is proved here; a derived one is proved again in each crate that drops the type.

impl Drop for SimpleStatement {
    fn drop(self) {
        let SimpleStatement { form: _, offset: _ } = self;
    }
}

impl Drop for SimpleForm {
    fn drop(self) {
        match self {
            SimpleForm::Assign(_, _, _) => {}
            SimpleForm::Step(_, _) => {}
            SimpleForm::Call(_) => {}
        }
    }
}

impl Drop for Returned {
    fn drop(self) {
        match self {
            Returned::Nothing => {}
            Returned::Value(_) => {}
            Returned::Pointer(_) => {}
        }
    }
}

impl Drop for ForStart {
    fn drop(self) {
        match self {
            ForStart::Nothing => {}
            ForStart::Declaration(_) => {}
            ForStart::Simple(_) => {}
        }
    }
}

impl Drop for CaseLabel {
    fn drop(self) {
        let CaseLabel {
            value: _,
            offset: _,
        } = self;
    }
}
