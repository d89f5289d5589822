// What names stand for, by scope (C99 6.2.1).

ghost use Rattle.std.specs.Prelude.{◌≡◌, ◌||◌, is_some, OnOk};
ghost use Rattle.c_rules.specs.Levels.{named_in};
ghost use Rattle.c_rules.specs.Names as spec;

use crate::dimensions::Dimensions;
use crate::level::{Definitions, Level, LocalNames};
use crate::library::LibraryFunction;
use crate::specifiers::{BaseType, BasicType};
use c_program::tree::{LocalVariable, Storage};
use sqlite_items::Items;
use std::alloc::{AllocError, Global};
use std::mem;

/// An integer object: its number among those of its storage, and its dimensions.
#[derive(Clone, Copy)]
pub struct Variable {
    pub storage: Storage,
    pub number: u32,
    pub ty: BasicType,
    pub dimensions: Dimensions,
    pub is_const: bool,
}

/// A kind of objects of POSIX threads.
#[derive(Clone, Copy)]
pub enum ObjectKind {
    Thread,
    Mutex,
    Barrier,
}

impl ObjectKind {
    /// Whether it is the same kind.
    pub fn is(self, other: ObjectKind) -> bool
        ensures { result ≡ spec.same_kind self other }
    {
        match (self, other) {
            (ObjectKind::Thread, ObjectKind::Thread)
            | (ObjectKind::Mutex, ObjectKind::Mutex)
            | (ObjectKind::Barrier, ObjectKind::Barrier) => true,
            _ => false,
        }
    }
}

/// An object of POSIX threads: its number among those of its kind, and its length where it is an array.
#[derive(Clone, Copy)]
pub struct Object {
    pub kind: ObjectKind,
    pub number: u32,
    pub length: Option<u64>,
}

/// What a declared name stands for.
#[derive(Clone, Copy)]
pub enum Meaning {
    Variable(Variable),
    /// The parameter of a start routine.
    Argument,
    Object(Object),
    /// A function, by the number of its header.
    Function(usize),
    /// An object whose declaration breaks a rule.
    Unusable,
}

/// What a name stands for at a place of the text.
#[derive(Clone, Copy)]
pub enum Known {
    Library(LibraryFunction),
    Declared(Meaning),
    Unknown,
}

impl Known {
    /// Whether it is the parameter of a start routine.
    pub fn is_argument(self) -> bool
        ensures { result ≡ spec.is_argument self }
    {
        matches!(self, Known::Declared(Meaning::Argument))
    }
}

/// A type with the `*` that may stand behind it.
#[derive(Clone, Copy)]
pub struct DeclaredType {
    pub base: BaseType,
    pub is_pointer: bool,
}

impl DeclaredType {
    /// Whether it is `void`.
    pub fn is_void(self) -> bool
        ensures { result ≡ spec.is_void_type self }
    {
        matches!(
            self,
            DeclaredType {
                base: BaseType::Void,
                is_pointer: false,
            }
        )
    }

    /// Whether it is `void *`.
    pub fn is_void_pointer(self) -> bool
        ensures { result ≡ spec.is_void_pointer self }
    {
        matches!(
            self,
            DeclaredType {
                base: BaseType::Void,
                is_pointer: true,
            }
        )
    }

    /// Whether it is `int`.
    pub fn is_int(self) -> bool
        ensures { result ≡ spec.is_int self }
    {
        matches!(
            self,
            DeclaredType {
                base: BaseType::Integer(BasicType::Int),
                is_pointer: false,
            }
        )
    }
}

/// What is known of a function from its declarations so far.
pub struct Header {
    pub returns: DeclaredType,
    pub parameters: Items<DeclaredType>,
    pub is_main: bool,
    /// The number of its definition, which may come later in the text.
    pub definition: Option<u32>,
}

impl Header {
    /// Whether it is a function of a pointer that returns a pointer.
    pub fn is_start_routine(&self) -> bool
        ensures { result ≡ spec.is_start_routine self.now }
    {
        match self.parameters.as_slice() {
            [only] => self.returns.is_void_pointer() && only.is_void_pointer(),
            _ => false,
        }
    }
}

/// What a function gives back, as its returns see it.
#[derive(Clone, Copy)]
pub enum Gives {
    Nothing,
    Integer,
    Pointer,
    /// Its type breaks a rule.
    Unlisted,
}

impl Gives {
    /// Whether it is a start routine.
    pub fn is_pointer(self) -> bool
        ensures { result ≡ spec.gives_pointer self }
    {
        matches!(self, Gives::Pointer)
    }
}

/// The names in scope at a place of the text, and the function that it stands in.
pub struct Scope<'t> {
    /// The functions that the text defines.
    pub definitions: Definitions<'t>,
    /// The scopes round the innermost one, that of the file first.
    pub outer: Items<Level<'t>>,
    /// The innermost scope.
    pub inner: Level<'t>,
    pub headers: Items<Header>,
    /// The number of the function's definition; none at file scope.
    pub function: Option<u32>,
    pub gives: Gives,
    pub locals: Items<LocalVariable>,
    /// The names of those that have one.
    pub local_names: LocalNames<'t>,
    /// How many loops of the function the place stands in.
    pub loops: usize,
    /// How many loops and switches.
    pub exits: usize,
    /// The number of the first local of the function behind those that it declares; from there on locals keep values.
    pub kept_from: u32,
}

impl<'t> Scope<'t> {
    /// The file's scope, where no name is declared yet.
    pub fn new(alloc: Global) -> Scope<'t>
        ensures { result ≡ spec.empty_scope }
    {
        Scope {
            definitions: Definitions::new(alloc),
            outer: Items::new(alloc),
            inner: Level::new(alloc),
            headers: Items::new(alloc),
            function: None,
            gives: Gives::Unlisted,
            locals: Items::new(alloc),
            local_names: LocalNames::new(alloc),
            loops: 0,
            exits: 0,
            kept_from: 0,
        }
    }

    /// What the innermost of the scopes round the innermost one says of the name.
    fn declared_outside(&self, name: &[u8]) -> Option<Meaning>
        ensures { result ≡ spec.declared_outside self.now.outer name.now }
    {
        let mut found = None;
        for level in self.outer.as_slice() {
            found = level.get(name).or(found);
        }
        found
    }

    /// What the name stands for.
    #[tactic(auto, unfolding(crate::specs::Names::look_up))]
    pub fn look_up(&self, name: &[u8]) -> Known
        ensures { result ≡ spec.look_up self.now name.now }
    {
        if let Some(function) = LibraryFunction::from_name(name) {
            return Known::Library(function);
        }
        match self.inner.get(name).or(self.declared_outside(name)) {
            Some(meaning) => Known::Declared(meaning),
            None => Known::Unknown,
        }
    }

    /// Whether the name may not be declared in the innermost scope.
    #[tactic(auto, unfolding(crate::specs::Names::is_taken))]
    pub fn is_taken(&self, name: &[u8]) -> bool
        ensures { result ≡ spec.is_taken self.now name.now }
    {
        LibraryFunction::from_name(name).is_some() || self.inner.get(name).is_some()
    }

    /// Declares a name in the innermost scope.
    #[tactic(auto, unfolding(crate::specs::Names::declaring))]
    pub fn declare(&mut self, name: &'t [u8], meaning: Meaning) -> Result<(), AllocError>
        ensures { OnOk result (self.new ≡ spec.declaring name.now meaning self.old) }
    {
        if let Meaning::Argument
        | Meaning::Variable(
            Variable {
                storage: Storage::Automatic,
                ..
            },
        ) = meaning
        {
            self.local_names.push(name)?;
        }
        self.inner.insert(name, meaning)
    }

    /// Enters a block.
    #[tactic(auto, unfolding(crate::specs::Names::opened))]
    pub fn open_block(&mut self, alloc: Global) -> Result<(), AllocError>
        ensures { OnOk result (self.new ≡ spec.opened self.old) }
    {
        let outer = mem::replace(&mut self.inner, Level::new(alloc));
        self.outer.push(outer)
    }

    /// Leaves a block.
    #[tactic(auto, unfolding(crate::specs::Names::closed))]
    pub fn close_block(&mut self)
        ensures { self.new ≡ spec.closed self.old }
    {
        if let Some(outer) = self.outer.pop() {
            self.inner = outer;
        }
    }
}

// A drop that is written here is proved here; a derived one is proved again in each crate that drops the type.

impl Drop for Header {
    fn drop(self) {
        let Header {
            returns: _,
            parameters: _,
            is_main: _,
            definition: _,
        } = self;
    }
}

impl Drop for Scope<'_> {
    fn drop(self) {
        let Scope {
            definitions: _,
            outer: _,
            inner: _,
            headers: _,
            function: _,
            gives: _,
            locals: _,
            local_names: _,
            loops: _,
            exits: _,
            kept_from: _,
        } = self;
    }
}
