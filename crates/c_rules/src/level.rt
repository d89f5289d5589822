// The names of one scope (C99 6.2.1), and those of the functions that a text defines.

ghost use Rattle.std.specs.Prelude.{◌≡◌, [], ◌∷◌, ◌++◌, map, OnOk};
ghost use Rattle.c_rules.specs.Levels as spec;

use crate::names::Meaning;
use indexmap::IndexMap;
use std::alloc::{AllocError, Global};
use std::marker::Model;

/// The names that one scope declares, and what each stands for there.
pub struct Level<'t> {
    names: IndexMap<&'t [u8], Meaning>,
}

impl<'t> Model for Level<'t> {
    ghost use Rattle.std.specs.Prelude.{ℕ, List, map};
    ghost use Rattle.c_rules.specs.declared.names.Meaning.{Meaning};
    ghost use Rattle.c_rules.specs.Levels.{plain};

    ghost Value = { List (List ℕ × Meaning) };

    ghost view = { λ l. map plain l.names.entries };
}

impl<'t> Level<'t> {
    /// It declares no name.
    pub fn new(alloc: Global) -> Level<'t>
        ensures { result ≡ [] }
    {
        Level {
            names: IndexMap::new(alloc),
        }
    }

    /// What the name stands for, if it is declared.
    pub fn get(&self, name: &[u8]) -> Option<Meaning>
        ensures { result ≡ spec.named_in self.now name.now }
    {
        self.names.get(&name).copied()
    }

    /// Declares a name, or changes what it stands for.
    pub fn insert(&mut self, name: &'t [u8], meaning: Meaning) -> Result<(), AllocError>
        ensures { OnOk result (self.new ≡ spec.inserted self.old name.now meaning) }
    {
        self.names.insert(name, meaning)?;
        Ok(())
    }
}

/// The functions that a text defines, by their names, each with the number of its first definition: a scope of their own, so that there is one kind of
/// table.
pub struct Definitions<'t> {
    level: Level<'t>,
}

impl<'t> Model for Definitions<'t> {
    ghost use Rattle.std.specs.Prelude.{ℕ, List, map};
    ghost use Rattle.c_rules.specs.Levels.{numbered};

    ghost Value = { List (List ℕ × ℕ) };

    ghost view = { λ d. map numbered d.level };
}

impl<'t> Definitions<'t> {
    /// No function is defined.
    pub fn new(alloc: Global) -> Definitions<'t>
        ensures { result ≡ [] }
    {
        Definitions {
            level: Level::new(alloc),
        }
    }

    /// The number of the first definition of a function, if it has one.
    #[tactic(auto, using(crate::proofs::LevelLemmas::lookup_numbered))]
    pub fn get(&self, name: &[u8]) -> Option<u32>
        ensures { result ≡ spec.named_in self.now name.now }
    {
        match self.level.get(name) {
            Some(Meaning::Function(number)) => Some(u32::try_from(number).unwrap_or(0)),
            Some(_) => Some(0),
            None => None,
        }
    }

    /// Notes the number of a definition, unless it is a second one of the function.
    #[tactic(auto, using(crate::proofs::LevelLemmas::insert_numbered))]
    pub fn note(&mut self, name: &'t [u8], number: u32) -> Result<(), AllocError>
        ensures { OnOk result (self.new ≡ spec.noted self.old name.now number) }
    {
        if self.get(name).is_some() {
            return Ok(());
        }
        self.level.insert(name, Meaning::Function(number as usize))
    }
}

/// The names of the locals that a function declares, in the order of their declarations.
pub struct LocalNames<'t> {
    names: Vec<&'t [u8]>,
}

impl<'t> Model for LocalNames<'t> {
    ghost use Rattle.std.specs.Prelude.{ℕ, List, map};
    ghost use Rattle.c_rules.specs.Levels.{pointed};

    ghost Value = { List (List ℕ) };

    ghost view = { λ n. map pointed n.names.items };
}

impl<'t> LocalNames<'t> {
    /// No local is declared.
    pub fn new(alloc: Global) -> LocalNames<'t>
        ensures { result ≡ [] }
    {
        LocalNames {
            names: Vec::new(alloc),
        }
    }

    /// A further local has the name.
    pub fn push(&mut self, name: &'t [u8]) -> Result<(), AllocError>
        ensures { OnOk result (self.new ≡ self.old ++ name.now ∷ []) }
    {
        self.names.push(name)?;
        Ok(())
    }

    /// No local is declared any more.
    pub fn clear(&mut self)
        ensures { self.new ≡ [] }
    {
        self.names.clear()
    }

    /// The names.
    pub fn as_slice(&self) -> &[&'t [u8]]
        ensures { map spec.pointed result.now ≡ self.now }
    {
        self.names.as_slice()
    }
}

// A drop that is written here is proved here; a derived one is proved again in each crate that drops the type.

impl Drop for Level<'_> {
    fn drop(self) {
        let Level { names: _ } = self;
    }
}

impl Drop for Definitions<'_> {
    fn drop(self) {
        let Definitions { level: _ } = self;
    }
}

impl Drop for LocalNames<'_> {
    fn drop(self) {
        let LocalNames { names: _ } = self;
    }
}
