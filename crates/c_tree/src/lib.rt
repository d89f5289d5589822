//! The parse tree of C, and the grammar of the profile: which tokens spell which tree.
#![tactic(auto)]

pub mod declaration;
pub mod expression;
pub mod sign;
pub mod statement;

pub use declaration::{
    Declaration, Declarator, ExternalDeclaration, Function, GlobalDeclaration, GlobalDeclarator,
    Initial, Initializer, Parameter, TranslationUnit,
};
pub use expression::{
    Argument, BinaryOperator, Call, Choice, Expression, Form, Name, Place, Pointer, Specifiers,
    Term, TypeWord, UnaryOperator,
};
pub use sign::Sign;
pub use statement::{
    AssignmentOperator, Block, BlockItem, CaseLabel, Direction, ForStart, Group, Returned,
    SimpleForm, SimpleStatement, Statement,
};
