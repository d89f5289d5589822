// Declarations (C99 6.7) and the text as a whole (C99 6.9).

use crate::expression::{Expression, Name, Specifiers};
use crate::statement::Block;
use sqlite_items::{Boxed, Items};

/// Variables of a block.
pub struct Declaration {
    pub specifiers: Specifiers,
    pub declarators: Items<Declarator>,
}

/// A variable of a block.
pub struct Declarator {
    pub name: Name,
    /// What stands in each pair of brackets (C99 6.7.5.2), from left to right; at most three.
    pub lengths: Items<Expression>,
    /// Behind `=`.
    pub initializer: Option<Boxed<Expression>>,
}

/// A whole text.
pub struct TranslationUnit {
    pub declarations: Items<ExternalDeclaration>,
}

/// A declaration at file scope (C99 6.9).
pub enum ExternalDeclaration {
    Function(Function),
    Objects(GlobalDeclaration),
}

/// A function's definition, or its prototype.
pub struct Function {
    pub specifiers: Specifiers,
    /// Whether a `*` stands before the name.
    pub is_pointer: bool,
    pub name: Name,
    pub parameters: Items<Parameter>,
    /// None of a prototype.
    pub body: Option<Block>,
}

/// A parameter of a function (C99 6.7.5.3).
pub struct Parameter {
    pub specifiers: Specifiers,
    pub is_pointer: bool,
    pub name: Option<Name>,
}

/// Variables at file scope.
pub struct GlobalDeclaration {
    pub specifiers: Specifiers,
    /// Whether a `*` stands before the first name; none stands before the others.
    pub is_pointer: bool,
    pub declarators: Items<GlobalDeclarator>,
}

/// A variable at file scope.
pub struct GlobalDeclarator {
    pub name: Name,
    /// What stands in each pair of brackets (C99 6.7.5.2), from left to right; at most three.
    pub lengths: Items<Expression>,
    /// Behind `=`.
    pub initializer: Option<Initializer>,
}

/// What stands behind the `=` of a global (C99 6.7.8).
pub enum Initializer {
    Value(Boxed<Expression>),
    /// Between braces, at least one; and the place of the first brace.
    List(Items<Initial>, usize),
    /// `PTHREAD_MUTEX_INITIALIZER`
    Mutex,
}

/// What stands between the braces of an initializer, for an element or for the elements of one row (C99 6.7.8).
#[cycle(initials)]
#[derive(Drop)]
pub enum Initial {
    Value(Boxed<Expression>),
    /// Between braces, at least one; and the place of the first brace.
    List(Items<Initial>, usize),
}

// A drop that is written here is proved here; a derived one is proved again in each crate that drops the type.

impl Drop for Declaration {
    fn drop(self) {
        let Declaration {
            specifiers: _,
            declarators: _,
        } = self;
    }
}

impl Drop for Declarator {
    fn drop(self) {
        let Declarator {
            name: _,
            lengths: _,
            initializer: _,
        } = self;
    }
}

impl Drop for TranslationUnit {
    fn drop(self) {
        let TranslationUnit { declarations: _ } = self;
    }
}

impl Drop for ExternalDeclaration {
    fn drop(self) {
        match self {
            ExternalDeclaration::Function(_) => {}
            ExternalDeclaration::Objects(_) => {}
        }
    }
}

impl Drop for Function {
    fn drop(self) {
        let Function {
            specifiers: _,
            is_pointer: _,
            name: _,
            parameters: _,
            body: _,
        } = self;
    }
}

impl Drop for Parameter {
    fn drop(self) {
        let Parameter {
            specifiers: _,
            is_pointer: _,
            name: _,
        } = self;
    }
}

impl Drop for GlobalDeclaration {
    fn drop(self) {
        let GlobalDeclaration {
            specifiers: _,
            is_pointer: _,
            declarators: _,
        } = self;
    }
}

impl Drop for GlobalDeclarator {
    fn drop(self) {
        let GlobalDeclarator {
            name: _,
            lengths: _,
            initializer: _,
        } = self;
    }
}

impl Drop for Initializer {
    fn drop(self) {
        match self {
            Initializer::Value(_) => {}
            Initializer::List(_, _) => {}
            Initializer::Mutex => {}
        }
    }
}
