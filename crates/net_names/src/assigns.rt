// The assigns of a module, found by their targets.

ghost use Rattle.std.specs.Prelude.{◌≡◌, option_copied, IfOk};
ghost use Rattle.std.specs.List.{flat_map};
ghost use Rattle.netlist.specs.NetlistOf as spec;

use crate::names::add_name;
use crate::places::Places;
use sqlite_items::Items;
use std::alloc::{AllocError, Global};
use std::marker::Model;
use verilog_tree::name::Identifier;
use verilog_tree::tree::{Assign, Expression, Item};

/// The assigns of a module. Contracts see them in the text's order.
#[derive(Drop)]
pub struct Assigns<'n> {
    targets: Places<'n>,
    list: Items<&'n Assign>,
}

impl<'n> Model for Assigns<'n> {
    ghost use Rattle.std.specs.Prelude.{◌≡◌, List};
    ghost use Rattle.verilog_tree.specs.declared.tree.Assign.{Assign};
    ghost use Rattle.net_names.specs.Found.{behind, targets_of};

    ghost Value = { List Assign };

    ghost view = { λ a. behind a.list };

    ghost invariant = { λ a. a.targets ≡ targets_of (behind a.list) };
}

impl<'n> Assigns<'n> {
    /// The assigns among these items.
    pub fn of(alloc: Global, items: &'n [Item]) -> Result<Assigns<'n>, AllocError>
        ensures { IfOk result (λ a. a ≡ flat_map (λ x. spec.some (spec.assign_item x)) items.now) }
    {
        let mut names = Items::new(alloc);
        let mut list = Items::new(alloc);
        for item in items {
            if let Item::Assign(assign) = item {
                add_name(&mut names, &assign.target)?;
                list.push(assign)?;
            }
        }
        let targets = Places::of(alloc, names)?;
        Ok(Assigns { targets, list })
    }

    /// The right side that is assigned to a name first.
    pub fn get(&self, name: &Identifier) -> Option<&'n Expression>
        ensures { option_copied result ≡ spec.assigned self.now name.now }
    {
        let at = self.targets.of_name(name);
        match self.list.get(at).copied() {
            Some(assign) => Some(&assign.value),
            None => None,
        }
    }
}
