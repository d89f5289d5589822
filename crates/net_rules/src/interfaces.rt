// What instances see of the modules that stand earlier.

ghost use Rattle.std.specs.Prelude.{◌≡◌, ◌∷◌, ◌++◌, [], None, OnOk, IfOk};
ghost use Rattle.std.specs.Option.{option_copied};
ghost use Rattle.verilog_tree.specs.Facts.{interface_named};
ghost use Rattle.verilog_tree.specs.Rules.{port_named};

use indexmap::IndexMap;
use std::alloc::{AllocError, Global};
use std::marker::Model;
use verilog_tree::name::Identifier;
use verilog_tree::tree::Port;

/// The ports of a module, found by their names.
pub struct Ports<'t> {
    list: &'t [Port],
    named: IndexMap<&'t [u8], &'t Port>,
}

impl<'t> Model for Ports<'t> {
    ghost use Rattle.std.specs.Prelude.{◌≡◌, List, map};
    ghost use Rattle.verilog_tree.specs.declared.tree.Port.{Port};
    ghost use Rattle.net_rules.specs.Tables.{plain_port, table_of};

    ghost Value = { List Port };

    ghost view = { λ p. p.list.now };

    ghost invariant = { λ p. map plain_port p.named.entries ≡ table_of p.list.now };
}

impl<'t> Ports<'t> {
    /// The table of these ports: of each name the first.
    pub fn new(alloc: Global, list: &'t [Port]) -> Result<Ports<'t>, AllocError>
        ensures { IfOk result (λ p. p ≡ list.now) }
    {
        let mut named = IndexMap::new(alloc);
        for port in list {
            let name = port.name.as_str().as_bytes();
            if named.get(&name).is_some() {
                continue;
            }
            named.insert(name, port)?;
        }
        Ok(Ports { list, named })
    }

    /// The ports, in order.
    pub fn as_slice(&self) -> &'t [Port]
        ensures { result.now ≡ self.now }
    {
        self.list
    }

    /// The first port of this name.
    pub fn get(&self, name: &[u8]) -> Option<&'t Port>
        ensures { option_copied result ≡ port_named self.now name.now }
    {
        self.named.get(&name).copied()
    }
}

/// What an instance sees of its module.
pub struct Interface<'t> {
    pub ports: Ports<'t>,
    /// Whether a `$write` stands in it or below it.
    pub prints: bool,
}

/// The modules that stand earlier, found by their names.
pub struct Interfaces<'t> {
    named: IndexMap<&'t [u8], Interface<'t>>,
}

impl<'t> Model for Interfaces<'t> {
    ghost use Rattle.std.specs.Prelude.{List, map};
    ghost use Rattle.verilog_tree.specs.Facts.{Interface};
    ghost use Rattle.net_rules.specs.Interfaces.{seen_at};

    ghost Value = { List Interface };

    ghost view = { λ s. map seen_at s.named.entries };
}

impl<'t> Interfaces<'t> {
    ghost use Rattle.net_rules.specs.Interfaces.{seen_as, seen};

    /// No module stands earlier.
    pub fn new(alloc: Global) -> Interfaces<'t>
        ensures { result ≡ [] }
    {
        Interfaces {
            named: IndexMap::new(alloc),
        }
    }

    /// The module of this name.
    pub fn get<'a>(&'a self, name: &'a Identifier) -> Option<&'a Interface<'t>>
        ensures { seen_as name.now (option_copied result) ≡ interface_named self.now name.now }
    {
        self.named.get(&name.as_str().as_bytes())
    }

    /// Adds a module of a new name.
    pub fn add(&mut self, name: &'t Identifier, interface: Interface<'t>) -> Result<(), AllocError>
        requires { interface_named self.old name.now ≡ None }
        ensures { OnOk result (self.new ≡ self.old ++ seen name.now interface.entry ∷ []) }
    {
        self.named.insert(name.as_str().as_bytes(), interface)?;
        Ok(())
    }
}

// A drop that is written here is proved here; a derived one is proved again in each crate that drops the type.

impl<'t> Drop for Ports<'t> {
    fn drop(self) {
        let Ports { list: _, named: _ } = self;
    }
}

impl<'t> Drop for Interface<'t> {
    fn drop(self) {
        let Interface {
            ports: _,
            prints: _,
        } = self;
    }
}

impl<'t> Drop for Interfaces<'t> {
    fn drop(self) {
        let Interfaces { named: _ } = self;
    }
}
