// The search for the first part of a net that breaks a rule.

ghost use Rattle.std.specs.Prelude.{◌≡◌, ◌&&◌, ◌||◌, ◌∷◌, ◌++◌, [], None, IfOk, OnOk, not, is_some};
ghost use Rattle.std.specs.List.{list_any};
ghost use Rattle.verilog_tree.specs.Facts as fact;
ghost use Rattle.verilog_tree.specs.Grammar.{clk};
ghost use Rattle.verilog_tree.specs.Rules.{has_port};
ghost use Rattle.verilog_tree.specs.Scope as declared;
ghost use Rattle.verilog_tree.specs.WellFormed as well;
ghost use Rattle.net_check.specs.Breaks as breaks;
ghost use Rattle.net_check.specs.Known as known;
ghost use Rattle.net_check.specs.Search as search_for;

use crate::connections::instance_right;
use crate::facts::ModuleFacts;
use crate::fault::{ModulePart, NetPart};
use crate::printing::{Printing, any_item_prints, any_prints_below, is_top, note_placed_in};
use net_rules::expressions::assign_right;
use net_rules::interfaces::{Interface, Interfaces, Ports};
use net_rules::kinds::{is_clk, is_input, width_of};
use net_rules::names::{NameSet, Scope};
use net_rules::statements::{constants_right, statements_right};
use std::alloc::{AllocError, Global};
use verilog_tree::tree::{Expression, Item, Module, Net, Port};

fn is_empty<T>(items: &[T]) -> bool
    ensures { result ≡ breaks.is_empty items.now }
{
    match items {
        [] => true,
        [_, ..] => false,
    }
}

/// Whether a list of it is empty of which the grammar asks for one.
fn lacks(item: &Item) -> bool
    ensures { result ≡ breaks.lacks item.now }
{
    match item {
        Item::Assign(x) => match &x.value {
            Expression::Concatenation(parts) => is_empty(parts.as_slice()),
            _ => false,
        },
        Item::Instance(x) => is_empty(x.connections.as_slice()),
        _ => false,
    }
}

/// Whether the names in the item are of their kinds, and the widths agree.
fn item_right(
    alloc: Global,
    interfaces: &Interfaces,
    scope: &Scope,
    item: &Item,
) -> Result<bool, AllocError>
    ensures { IfOk result (λ b. b ≡ well.item_right interfaces.now scope.now item.now) }
{
    match item {
        Item::Wire(x) => Ok(width_of(x.high) > 0),
        Item::Register(x) => Ok(width_of(x.high) > 0),
        Item::Memory(x) => Ok(width_of(Some(x.high)) > 0),
        Item::Assign(x) => Ok(assign_right(scope, &x.target, &x.value)),
        Item::Initial(x) => Ok(constants_right(scope, x.constants.as_slice())),
        Item::Always(x) => Ok(statements_right(scope, x.body.as_slice())),
        Item::Instance(x) => instance_right(alloc, interfaces, scope, x),
    }
}

/// Whether the item meets the rules; adds it to what is known.
fn item_stands<'t>(
    alloc: Global,
    interfaces: &Interfaces,
    all: &ModuleFacts,
    printing: &mut Printing<'t>,
    before: &mut ModuleFacts<'t>,
    item: &'t Item,
) -> Result<bool, AllocError>
    ensures stands { IfOk result (λ b. b ≡ known.item_stands interfaces.now all.now printing.old before.old item.now) }
    ensures facts { OnOk result (known.facts_of interfaces.now printing.new before.new ≡ fact.after_item (known.facts_of interfaces.now printing.old before.old) item.now) }
{
    let right = item_right(alloc, interfaces, &all.scope, item)?;
    let once = printing.add(interfaces, item)?;
    let new = before.add_item(interfaces, item)?;
    Ok(new && once && !lacks(item) && all.is_complete(item) && right)
}

/// The first item that breaks a rule; adds the items before it to what is known.
fn wrong_item<'t>(
    alloc: Global,
    interfaces: &Interfaces,
    all: &ModuleFacts,
    printing: &mut Printing<'t>,
    before: &mut ModuleFacts<'t>,
    items: &'t [Item],
) -> Result<Option<usize>, AllocError>
    ensures first { IfOk result (λ k. k ≡ known.wrong_item interfaces.now all.now printing.old before.old items.now) }
    ensures facts { IfOk result (λ k. k ≡ None → known.facts_of interfaces.now printing.new before.new ≡ known.after_items interfaces.now printing.old before.old items.now) }
{
    for (at, item) in items.iter().enumerate() {
        if !item_stands(alloc, interfaces, all, printing, before, item)? {
            return Ok(Some(at));
        }
    }
    Ok(None)
}

/// Whether the port meets the rules; adds it to what is known.
fn port_stands<'t>(
    all: &ModuleFacts,
    before: &mut ModuleFacts<'t>,
    port: &'t Port,
) -> Result<bool, AllocError>
    ensures stands { IfOk result (λ b. b ≡ known.port_stands all.now before.old port.now) }
    ensures facts { OnOk result (before.new ≡ known.after_port before.old port.now) }
{
    let new = before.add_port(port)?;
    let wide = width_of(port.high);
    let is_clock_right = !is_clk(&port.name) || (is_input(port.direction) && wide == 1);
    Ok(new && wide > 0 && all.is_driven(port) && is_clock_right)
}

/// The first port that breaks a rule; adds the ports before it to what is known.
fn wrong_port<'t>(
    all: &ModuleFacts,
    before: &mut ModuleFacts<'t>,
    ports: &'t [Port],
) -> Result<Option<usize>, AllocError>
    ensures first { IfOk result (λ k. k ≡ search_for.first_wrong (known.port_stands all.now) known.after_port before.old ports.now 0) }
    ensures facts { IfOk result (λ k. k ≡ None → before.new ≡ fact.after known.after_port before.old ports.now) }
{
    for (at, port) in ports.iter().enumerate() {
        if !port_stands(all, before, port)? {
            return Ok(Some(at));
        }
    }
    Ok(None)
}

fn has_clock(ports: &[Port]) -> bool
    ensures { result ≡ has_port ports.now clk }
{
    for port in ports {
        if is_clk(&port.name) {
            return true;
        }
    }
    false
}

fn is_clocked(interfaces: &Interfaces, item: &Item) -> bool
    ensures { result ≡ well.is_clocked interfaces.now item.now }
{
    match item {
        Item::Always(_) => true,
        Item::Instance(x) => match interfaces.get(&x.module_name) {
            None => false,
            Some(interface) => interface.ports.get(b"clk".as_slice()).is_some(),
        },
        _ => false,
    }
}

fn any_clocked(interfaces: &Interfaces, items: &[Item]) -> bool
    ensures { result ≡ list_any (well.is_clocked interfaces.now) items.now }
{
    for item in items {
        if is_clocked(interfaces, item) {
            return true;
        }
    }
    false
}

/// Whether the module's name is new and not `clk`.
fn is_name_right(interfaces: &Interfaces, module: &Module) -> bool
    ensures { result ≡ (not (is_some (fact.interface_named interfaces.now module.now.name)) && not (declared.is_clk module.now.name)) }
{
    interfaces.get(&module.name).is_none() && !is_clk(&module.name)
}

/// Whether the head of a module meets the rules, by the modules that have an instance in the net.
fn head_stands(interfaces: &Interfaces, placed: &NameSet, module: &Module) -> bool
    ensures { result ≡ known.head_stands placed.now interfaces.now module.now }
{
    let ports = module.ports.as_slice();
    let items = module.items.as_slice();
    !is_empty(ports)
        && is_name_right(interfaces, module)
        && (!any_clocked(interfaces, items) || has_clock(ports))
        && (!any_item_prints(items) || is_top(&module.name) || placed.contains(&module.name))
}

/// The first part of a module that breaks a rule, where its head meets the rules.
fn wrong_inside<'t>(
    alloc: Global,
    interfaces: &Interfaces,
    all: &mut ModuleFacts<'t>,
    printing: &mut Printing<'t>,
    before: &mut ModuleFacts<'t>,
    module: &'t Module,
) -> Result<Option<ModulePart>, AllocError>
    requires all { all.old ≡ known.unknown }
    requires before { before.old ≡ known.unknown }
    ensures found { IfOk result (λ o. o ≡ known.first_inside interfaces.now printing.old module.now) }
    ensures printing { IfOk result (λ o. o ≡ None → printing.new ≡ known.printing_after interfaces.now printing.old module.now) }
{
    let ports = module.ports.as_slice();
    let items = module.items.as_slice();
    all.add_ports(ports)?;
    all.add_items(interfaces, items)?;
    let port = wrong_port(all, before, ports)?;
    match port {
        Some(at) => Ok(Some(ModulePart::Port(at))),
        None => {
            let item = wrong_item(alloc, interfaces, all, printing, before, items)?;
            match item {
                Some(at) => Ok(Some(ModulePart::Item(at))),
                None => Ok(None),
            }
        }
    }
}

/// The same, with nothing known of the module.
fn search_inside<'t>(
    alloc: Global,
    interfaces: &Interfaces,
    printing: &mut Printing<'t>,
    module: &'t Module,
) -> Result<Option<ModulePart>, AllocError>
    ensures found { IfOk result (λ o. o ≡ known.first_inside interfaces.now printing.old module.now) }
    ensures printing { IfOk result (λ o. o ≡ None → printing.new ≡ known.printing_after interfaces.now printing.old module.now) }
{
    let mut all = ModuleFacts::new(alloc);
    let mut before = ModuleFacts::new(alloc);
    wrong_inside(alloc, interfaces, &mut all, printing, &mut before, module)
}

/// The first part of a module that breaks a rule, by the modules that have an instance in the net.
#[tactic(auto, using(crate::proofs::KnownParts::head_fails))]
fn first_part<'t>(
    alloc: Global,
    interfaces: &Interfaces,
    printing: &mut Printing<'t>,
    placed: &NameSet,
    module: &'t Module,
) -> Result<Option<ModulePart>, AllocError>
    ensures found { IfOk result (λ o. o ≡ known.first_part placed.now interfaces.now printing.old module.now) }
    ensures printing { IfOk result (λ o. o ≡ None → printing.new ≡ known.printing_after interfaces.now printing.old module.now) }
{
    if head_stands(interfaces, placed, module) {
        search_inside(alloc, interfaces, printing, module)
    } else {
        Ok(Some(ModulePart::Head))
    }
}

/// Adds a module of a new name.
fn add_interface<'t>(
    alloc: Global,
    interfaces: &mut Interfaces<'t>,
    module: &'t Module,
) -> Result<(), AllocError>
    requires { fact.interface_named interfaces.old module.now.name ≡ None }
    ensures { OnOk result (interfaces.new ≡ interfaces.old ++ fact.interface_of interfaces.old module.now ∷ []) }
{
    let ports = Ports::new(alloc, module.ports.as_slice())?;
    let prints = any_prints_below(interfaces, module.items.as_slice());
    interfaces.add(&module.name, Interface { ports, prints })
}

/// The first part of the next module that breaks a rule; adds the module to what is known where there is none.
#[tactic(auto, using(crate::proofs::KnownParts::name_new))]
fn next_module<'t>(
    alloc: Global,
    interfaces: &mut Interfaces<'t>,
    printing: &mut Printing<'t>,
    placed: &NameSet,
    module: &'t Module,
) -> Result<Option<ModulePart>, AllocError>
    ensures found { IfOk result (λ o. o ≡ known.first_part placed.now interfaces.old printing.old module.now) }
    ensures facts { IfOk result (λ o. o ≡ None → known.facts_of interfaces.new printing.new known.unknown ≡ known.after_module interfaces.old printing.old module.now) }
{
    match first_part(alloc, interfaces, printing, placed, module)? {
        Some(part) => Ok(Some(part)),
        None => {
            add_interface(alloc, interfaces, module)?;
            Ok(None)
        }
    }
}

/// The first part of these modules that breaks a rule.
fn first_among<'t>(
    alloc: Global,
    interfaces: &mut Interfaces<'t>,
    printing: &mut Printing<'t>,
    placed: &NameSet,
    modules: &'t [Module],
) -> Result<Option<NetPart>, AllocError>
    ensures { IfOk result (λ o. o ≡ search_for.first_among placed.now (known.facts_of interfaces.old printing.old known.unknown) modules.now 0) }
{
    for (number, module) in modules.iter().enumerate() {
        let found = next_module(alloc, interfaces, printing, placed, module)?;
        match found {
            Some(part) => return Ok(Some(NetPart::Module { number, part })),
            None => {}
        }
    }
    Ok(None)
}

#[tactic(auto, using(crate::proofs::KnownParts::placed_in))]
fn first_of_modules(alloc: Global, modules: &[Module]) -> Result<Option<NetPart>, AllocError>
    ensures { IfOk result (λ o. o ≡ known.first_of modules.now) }
{
    let mut placed = NameSet::new(alloc);
    let mut interfaces = Interfaces::new(alloc);
    let mut printing = Printing::new(alloc);
    note_placed_in(&mut placed, modules)?;
    first_among(alloc, &mut interfaces, &mut printing, &placed, modules)
}

/// The first part of the net that breaks a rule, if one does.
pub fn first_of(alloc: Global, net: &Net) -> Result<Option<NetPart>, AllocError>
    ensures { IfOk result (λ o. o ≡ search_for.first_of net.now.modules) }
{
    let modules = net.modules.as_slice();
    if is_empty(modules) {
        return Ok(Some(NetPart::Modules));
    }
    first_of_modules(alloc, modules)
}
