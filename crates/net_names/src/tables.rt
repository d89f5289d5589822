// What the names of a module stand for.

ghost use Rattle.std.specs.Prelude.{◌≤◌, length, IfOk};
ghost use Rattle.net_names.specs.Tabled.{AreDrivers, AreNames, AreTables};

use crate::assigns::Assigns;
use crate::initials::Initials;
use crate::kinds::Kinds;
use crate::names::{memory_places, signal_places};
use crate::places::Places;
use crate::ties::Ties;
use std::alloc::{AllocError, Global};
use verilog_tree::tree::Module;

/// The names of a module's signals, and of its memories.
#[derive(Drop)]
pub struct Names<'n> {
    pub signals: Places<'n>,
    pub memories: Places<'n>,
}

impl<'n> Names<'n> {
    /// Those of a module.
    pub fn of(alloc: Global, module: &'n Module) -> Result<Names<'n>, AllocError>
        ensures { IfOk result (AreNames module.now) }
    {
        let signals = signal_places(alloc, module)?;
        let memories = memory_places(alloc, module.items.as_slice())?;
        Ok(Names { signals, memories })
    }
}

/// What drives the wires and outputs of a module.
#[derive(Drop)]
pub struct Drivers<'n> {
    pub assigns: Assigns<'n>,
    pub ties: Ties<'n>,
}

impl<'n> Drivers<'n> {
    /// Those of a module, after those before it.
    pub fn of(
        alloc: Global,
        kinds: &Kinds<'n>,
        before: usize,
        module: &'n Module,
    ) -> Result<Drivers<'n>, AllocError>
        requires { before ≤ length kinds.now }
        ensures { IfOk result (AreDrivers kinds.now before module.now) }
    {
        let items = module.items.as_slice();
        let assigns = Assigns::of(alloc, items)?;
        let ties = Ties::of(alloc, kinds, before, items)?;
        Ok(Drivers { assigns, ties })
    }
}

/// What the names of a module stand for.
pub struct Tables<'n> {
    pub names: Names<'n>,
    pub drivers: Drivers<'n>,
    pub initials: Initials<'n>,
}

impl<'n> Tables<'n> {
    /// The tables of a module, after those before it.
    pub fn of(
        alloc: Global,
        kinds: &Kinds<'n>,
        before: usize,
        module: &'n Module,
    ) -> Result<Tables<'n>, AllocError>
        requires { before ≤ length kinds.now }
        ensures { IfOk result (AreTables kinds.now before module.now) }
    {
        let names = Names::of(alloc, module)?;
        let initials = Initials::of(alloc, module.items.as_slice())?;
        let drivers = Drivers::of(alloc, kinds, before, module)?;
        Ok(Tables {
            names,
            drivers,
            initials,
        })
    }
}

// A drop that is written here is proved here; a derived one is proved again in each crate that drops the type.

impl<'n> Drop for Tables<'n> {
    fn drop(self) {
        let Tables {
            names: _,
            drivers: _,
            initials: _,
        } = self;
    }
}
