// The modules of a net, and the net.

ghost use Rattle.std.specs.Prelude.{◌≡◌, ◌≤◌, ◌++◌, [], length, take, IfOk, OnOk};
ghost use Rattle.std.specs.List.{flat_map};
ghost use Rattle.net_names.specs.Tabled.{AreTables};
ghost use Rattle.net_netlist.specs.Laid as laid;
ghost use Rattle.netlist.specs.NetlistOf as spec;

use crate::actions::add_statements;
use crate::instances::instances;
use crate::memories::memories;
use crate::signals::signals;
use net_names::kinds::Kinds;
use net_names::places::Places;
use net_names::tables::Tables;
use netlist::netlist::{Action, Memory, Module, Netlist, Signal};
use sqlite_items::Items;
use std::alloc::{AllocError, Global};
use verilog_tree::tree;
use verilog_tree::tree::Item;

/// Adds the actions of an always block.
fn add_item(
    alloc: Global,
    signals: &Places<'_>,
    memories: &Places<'_>,
    item: &Item,
    actions: &mut Items<Action>,
) -> Result<(), AllocError>
    ensures { OnOk result (actions.new ≡ actions.old ++ spec.item_actions signals.now memories.now item.now) }
{
    match item {
        Item::Always(x) => {
            add_statements(alloc, signals, memories, x.body.as_slice(), &[], actions)
        }
        _ => Ok(()),
    }
}

/// The actions of the always blocks among these items.
fn actions(
    alloc: Global,
    signals: &Places<'_>,
    memories: &Places<'_>,
    items: &[Item],
) -> Result<Items<Action>, AllocError>
    ensures { IfOk result (λ actions. actions ≡ flat_map (spec.item_actions signals.now memories.now) items.now) }
{
    let mut actions = Items::new(alloc);
    for item in items {
        add_item(alloc, signals, memories, item, &mut actions)?;
    }
    Ok(actions)
}

/// The signals of a module, and its memories.
#[derive(Drop)]
struct Declarations {
    signals: Items<Signal>,
    memories: Items<Memory>,
}

fn declared(
    alloc: Global,
    tables: &Tables<'_>,
    of: &tree::Module,
) -> Result<Declarations, AllocError>
    ensures signals { IfOk result (λ d. d.signals ≡ laid.all_signals tables.now of.now) }
    ensures memories { IfOk result (λ d. d.memories ≡ flat_map (laid.item_memory tables.now.initials) of.now.items) }
{
    let signals = signals(alloc, tables, of)?;
    let memories = memories(alloc, &tables.initials, of.items.as_slice())?;
    Ok(Declarations { signals, memories })
}

/// A module over its tables, after the modules before it.
fn with_tables(
    alloc: Global,
    kinds: &Kinds<'_>,
    before: usize,
    tables: &Tables<'_>,
    of: &tree::Module,
) -> Result<Module, AllocError>
    requires before { before ≤ length kinds.now }
    requires tables { AreTables kinds.now before of.now tables.now }
    ensures { IfOk result (λ m. m ≡ spec.module_of (take before kinds.now) of.now) }
{
    let declared = declared(alloc, tables, of)?;
    let (names, items) = (&tables.names, of.items.as_slice());
    let actions = actions(alloc, &names.signals, &names.memories, items)?;
    let instances = instances(alloc, kinds, before, &names.signals, items)?;
    let name = of.name.clone()?;
    let Declarations { signals, memories } = declared;
    Ok(Module {
        name,
        signals,
        memories,
        actions,
        instances,
    })
}

/// A module, after those before it.
fn module(
    alloc: Global,
    kinds: &Kinds<'_>,
    before: usize,
    of: &tree::Module,
) -> Result<Module, AllocError>
    requires { before ≤ length kinds.now }
    ensures { IfOk result (λ m. m ≡ spec.module_of (take before kinds.now) of.now) }
{
    let tables = Tables::of(alloc, kinds, before, of)?;
    with_tables(alloc, kinds, before, &tables, of)
}

/// These modules, which `kinds` finds by their names.
fn modules(
    alloc: Global,
    kinds: &Kinds<'_>,
    all: &[tree::Module],
) -> Result<Items<Module>, AllocError>
    requires { kinds.now ≡ all.now }
    ensures { IfOk result (λ modules. modules ≡ spec.modules_of [] all.now) }
{
    let mut modules = Items::new(alloc);
    for before in 0..all.len() {
        let next = module(alloc, kinds, before, &all[before])?;
        modules.push(next)?;
    }
    Ok(modules)
}

/// The netlist of a net: each name is looked up in its module, and each signal gets what drives it.
///
/// An error is want of memory, or a number of bits or words that does not fit, which no well-formed net has.
pub fn netlist(alloc: Global, net: &tree::Net) -> Result<Netlist, AllocError>
    ensures { IfOk result (λ n. n ≡ spec.netlist_of net.now) }
{
    let all = net.modules.as_slice();
    let kinds = Kinds::of(alloc, all)?;
    let modules = modules(alloc, &kinds, all)?;
    Ok(Netlist { modules })
}
