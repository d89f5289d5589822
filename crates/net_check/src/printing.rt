// Which modules print, and where they stand.

ghost use Rattle.std.specs.Prelude.{◌≡◌, ◌&&◌, ◌||◌, OnOk, IfOk, not};
ghost use Rattle.std.specs.List.{list_any};
ghost use Rattle.verilog_tree.specs.Facts as fact;
ghost use Rattle.net_check.specs.Known as known;

use net_rules::interfaces::Interfaces;
use net_rules::names::NameSet;
use net_rules::writes::item_prints;
use std::alloc::{AllocError, Global};
use verilog_tree::name::Identifier;
use verilog_tree::tree::{Item, Module};

/// What is known of a net's prints up to a place in it.
#[derive(Drop)]
pub struct Printing<'t> {
    /// Whether an always block with a `$write` stands before.
    pub printed: bool,
    /// The modules that have an instance before.
    pub placed: NameSet<'t>,
}

pub fn is_top(name: &Identifier) -> bool
    ensures { result ≡ fact.is_top name.now }
{
    name.as_str() == "top"
}

/// Whether it is an instance of a module that prints, `top` aside.
pub fn places_printer(interfaces: &Interfaces, item: &Item) -> bool
    ensures { result ≡ fact.places_printer interfaces.now item.now }
{
    match item {
        Item::Instance(x) => match interfaces.get(&x.module_name) {
            None => false,
            Some(interface) => interface.prints && !is_top(&x.module_name),
        },
        _ => false,
    }
}

/// Adds the module of the item where it is an instance, and says whether it is no second one of a module that prints.
fn place_item<'t>(
    placed: &mut NameSet<'t>,
    interfaces: &Interfaces,
    item: &'t Item,
) -> Result<bool, AllocError>
    ensures alone { IfOk result (λ b. b ≡ known.is_alone interfaces.now placed.old item.now) }
    ensures placed { OnOk result (placed.new ≡ fact.after_module_name placed.old (fact.module_of item.now)) }
{
    match item {
        Item::Instance(x) => {
            let prints = places_printer(interfaces, item);
            let first = placed.add(&x.module_name)?;
            Ok(!prints || first)
        }
        _ => Ok(true),
    }
}

impl<'t> Printing<'t> {
    /// Nothing prints.
    pub fn new(alloc: Global) -> Printing<'t>
        ensures { result ≡ known.unprinted }
    {
        Printing {
            printed: false,
            placed: NameSet::new(alloc),
        }
    }

    /// Adds an item, and says whether `$write` stands in no other always block, and in no other instance of a module.
    pub fn add(&mut self, interfaces: &Interfaces, item: &'t Item) -> Result<bool, AllocError>
        ensures once { IfOk result (λ b. b ≡ (not (fact.item_prints item.now && self.old.printed) && known.is_alone interfaces.now self.old.placed item.now)) }
        ensures printing { OnOk result (self.new ≡ known.after_print self.old item.now) }
    {
        let prints = item_prints(item);
        let once = !(prints && self.printed);
        let alone = place_item(&mut self.placed, interfaces, item)?;
        self.printed = self.printed || prints;
        Ok(once && alone)
    }
}

/// Adds the modules that have instances among the items.
fn note_all_placed<'t>(placed: &mut NameSet<'t>, items: &'t [Item]) -> Result<(), AllocError>
    ensures { OnOk result (placed.new ≡ fact.after known.after_placed placed.old items.now) }
{
    for item in items {
        match item {
            Item::Instance(x) => {
                placed.add(&x.module_name)?;
            }
            _ => {}
        }
    }
    Ok(())
}

/// Adds the modules that have instances in the modules.
pub fn note_placed_in<'t>(placed: &mut NameSet<'t>, modules: &'t [Module]) -> Result<(), AllocError>
    ensures { OnOk result (placed.new ≡ fact.after known.after_placed_in placed.old modules.now) }
{
    for module in modules {
        note_all_placed(placed, module.items.as_slice())?;
    }
    Ok(())
}

/// Whether an always block of the items has a `$write`.
pub fn any_item_prints(items: &[Item]) -> bool
    ensures { result ≡ list_any fact.item_prints items.now }
{
    for item in items {
        if item_prints(item) {
            return true;
        }
    }
    false
}

/// Whether a `$write` stands in the items or below them.
pub fn any_prints_below(interfaces: &Interfaces, items: &[Item]) -> bool
    ensures { result ≡ list_any (λ x. fact.item_prints x || fact.places_printer interfaces.now x) items.now }
{
    for item in items {
        if item_prints(item) || places_printer(interfaces, item) {
            return true;
        }
    }
    false
}
