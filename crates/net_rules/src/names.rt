// Sets of names and of places, and the declarations of a module.

ghost use Rattle.std.specs.Prelude.{◌≡◌, [], IfOk, OnOk, not};
ghost use Rattle.verilog_tree.specs.Scope.{is_known, is_declared, kind_of};
ghost use Rattle.verilog_tree.specs.Facts.{with_name, is_place, with_place, with_declaration};

use indexmap::{IndexMap, IndexSet};
use std::alloc::{AllocError, Global};
use std::marker::Model;
use verilog_tree::kind::Kind;
use verilog_tree::name::Identifier;

/// A set of names, in the order in which they came.
pub struct NameSet<'t> {
    names: IndexSet<&'t [u8]>,
}

impl<'t> Model for NameSet<'t> {
    ghost use Rattle.std.specs.Prelude.{ℕ, List, map};

    ghost Value = { List (List ℕ) };

    ghost view = { λ s. map (λ k. k.now) s.names.keys };
}

impl<'t> NameSet<'t> {
    /// The empty set.
    pub fn new(alloc: Global) -> NameSet<'t>
        ensures { result ≡ [] }
    {
        NameSet {
            names: IndexSet::new(alloc),
        }
    }

    /// Whether the name is in the set.
    pub fn contains(&self, name: &Identifier) -> bool
        ensures { result ≡ is_known self.now name.now }
    {
        self.names.contains(&name.as_str().as_bytes())
    }

    /// Adds a name, unless it is there, and says whether it is new.
    pub fn add(&mut self, name: &'t Identifier) -> Result<bool, AllocError>
        ensures new { IfOk result (λ b. b ≡ not (is_known self.old name.now)) }
        ensures names { OnOk result (self.new ≡ with_name self.old name.now) }
    {
        Ok(self.names.insert(name.as_str().as_bytes())?)
    }
}

/// A set of registers and words of memories, in the order in which they came.
pub struct PlaceSet<'t> {
    places: IndexSet<(&'t [u8], Option<u64>)>,
}

impl<'t> Model for PlaceSet<'t> {
    ghost use Rattle.std.specs.Prelude.{ℕ, List, Option, map};

    ghost Value = { List (List ℕ × Option ℕ) };

    ghost view = { λ s. map (λ k. (k.0.now, k.1)) s.places.keys };
}

impl<'t> PlaceSet<'t> {
    /// The empty set.
    pub fn new(alloc: Global) -> PlaceSet<'t>
        ensures { result ≡ [] }
    {
        PlaceSet {
            places: IndexSet::new(alloc),
        }
    }

    /// Whether the register, or the word of the memory, is in the set.
    pub fn contains(&self, name: &Identifier, word: Option<u64>) -> bool
        ensures { result ≡ is_place self.now (name.now, word) }
    {
        self.places.contains(&(name.as_str().as_bytes(), word))
    }

    /// Adds a place, unless it is there, and says whether it is new.
    pub fn add(&mut self, name: &'t Identifier, word: Option<u64>) -> Result<bool, AllocError>
        ensures new { IfOk result (λ b. b ≡ not (is_place self.old (name.now, word))) }
        ensures places { OnOk result (self.new ≡ with_place self.old (name.now, word)) }
    {
        Ok(self.places.insert((name.as_str().as_bytes(), word))?)
    }
}

/// The names that a module declares, in the text's order, and what each is declared as first.
pub struct Scope<'t> {
    kinds: IndexMap<&'t [u8], Kind>,
}

impl<'t> Model for Scope<'t> {
    ghost use Rattle.std.specs.Prelude.{ℕ, List, map};
    ghost use Rattle.verilog_tree.specs.declared.kind.Kind.{Kind};
    ghost use Rattle.net_rules.specs.Tables.{plain};

    ghost Value = { List (List ℕ × Kind) };

    ghost view = { λ s. map plain s.kinds.entries };
}

impl<'t> Scope<'t> {
    /// No name is declared.
    pub fn new(alloc: Global) -> Scope<'t>
        ensures { result ≡ [] }
    {
        Scope {
            kinds: IndexMap::new(alloc),
        }
    }

    /// What the name is declared as, if it is declared.
    pub fn kind(&self, name: &Identifier) -> Option<Kind>
        ensures { result ≡ kind_of self.now name.now }
    {
        self.kinds.get(&name.as_str().as_bytes()).copied()
    }

    /// Adds a name, unless it is there, and says whether it is new.
    pub fn declare(&mut self, name: &'t Identifier, kind: Kind) -> Result<bool, AllocError>
        ensures new { IfOk result (λ b. b ≡ not (is_declared self.old name.now)) }
        ensures scope { OnOk result (self.new ≡ with_declaration self.old (name.now, kind)) }
    {
        if self.kind(name).is_some() {
            return Ok(false);
        }
        self.kinds.insert(name.as_str().as_bytes(), kind)?;
        Ok(true)
    }
}

// A drop that is written here is proved here; a derived one is proved again in each crate that drops the type.

impl<'t> Drop for NameSet<'t> {
    fn drop(self) {
        let NameSet { names: _ } = self;
    }
}

impl<'t> Drop for PlaceSet<'t> {
    fn drop(self) {
        let PlaceSet { places: _ } = self;
    }
}

impl<'t> Drop for Scope<'t> {
    fn drop(self) {
        let Scope { kinds: _ } = self;
    }
}
