// Where names stand in lists.

ghost use Rattle.std.specs.Prelude.{◌≡◌, IfOk};
ghost use Rattle.netlist.specs.NetlistOf.{place};

use sqlite_items::Items;
use std::alloc::{AllocError, Global};
use std::collections::HashMap;
use std::marker::Model;
use verilog_tree::name::Identifier;

/// A list of names, each of which is found at its first place without a search. Contracts see the list.
pub struct Places<'n> {
    names: Items<&'n [u8]>,
    places: HashMap<&'n [u8], usize>,
}

impl<'n> Model for Places<'n> {
    ghost use Rattle.std.specs.Prelude.{ℕ, List};
    ghost use Rattle.net_names.specs.Tables.{names_of, AreFirstPlaces};

    ghost Value = { List (List ℕ) };

    ghost view = { λ p. names_of p.names };

    ghost invariant = { λ p. AreFirstPlaces p.places.entries 0 (names_of p.names) };
}

impl<'n> Places<'n> {
    ghost use Rattle.net_names.specs.Tables.{names_of};

    /// The places of these names. They are put in from the last to the first, so that the first place of a name stays.
    pub fn of(alloc: Global, names: Items<&'n [u8]>) -> Result<Places<'n>, AllocError>
        ensures { IfOk result (λ p. p ≡ names_of names.entry) }
    {
        let mut places = HashMap::new(alloc);
        for place in (0..names.len()).rev() {
            places.insert(names.as_slice()[place], place)?;
        }
        Ok(Places { names, places })
    }

    /// The first place of the name, and past the last where it is none of them.
    pub fn at(&self, name: &[u8]) -> usize
        ensures { result ≡ place self.now name.now }
    {
        self.places.get(name).copied().unwrap_or(self.names.len())
    }

    /// The same of the name of something.
    pub fn of_name(&self, name: &Identifier) -> usize
        ensures { result ≡ place self.now name.now }
    {
        self.at(name.as_str().as_bytes())
    }
}

// A drop that is written here is proved here; a derived one is proved again in each crate that drops the type.

impl<'n> Drop for Places<'n> {
    fn drop(self) {
        let Places {
            names: _,
            places: _,
        } = self;
    }
}
