// What is known of a module up to a place in it.

ghost use Rattle.std.specs.Prelude.{◌≡◌, ◌&&◌, ◌||◌, OnOk, IfOk, not, is_some};
ghost use Rattle.verilog_tree.specs.Facts as fact;
ghost use Rattle.verilog_tree.specs.Scope.{declaration, is_declared, is_known, is_clk};
ghost use Rattle.verilog_tree.specs.WellFormed as well;
ghost use Rattle.net_check.specs.Known as known;

use crate::connections::is_driving;
use net_rules::interfaces::{Interfaces, Ports};
use net_rules::kinds::{is_clk, port_kind, signal, width_of};
use net_rules::names::{NameSet, PlaceSet, Scope};
use net_rules::writes::{all_write_none, body_of, note_all_writes};
use std::alloc::{AllocError, Global};
use verilog_tree::kind::{Kind, SignalClass};
use verilog_tree::name::Identifier;
use verilog_tree::tree::{Connection, Direction, InitialConstant, Item, Port};

/// What is known of a module up to a place in it.
#[derive(Drop)]
pub struct ModuleFacts<'t> {
    /// What is declared.
    pub scope: Scope<'t>,
    /// What an assign or an instance drives.
    pub driven: NameSet<'t>,
    /// The registers and memories that an always block writes.
    pub written: NameSet<'t>,
    /// The registers, and words of memories, that have their initial constants.
    pub given: PlaceSet<'t>,
}

/// Declares a name, unless it is declared, and says whether it is new and not `clk`.
fn declare_name<'t>(
    scope: &mut Scope<'t>,
    name: &'t Identifier,
    kind: Kind,
) -> Result<bool, AllocError>
    ensures new { IfOk result (λ b. b ≡ not (is_declared scope.old name.now || is_clk name.now)) }
    ensures scope { OnOk result (scope.new ≡ fact.with_declaration scope.old (name.now, kind)) }
{
    let first = scope.declare(name, kind)?;
    Ok(first && !is_clk(name))
}

/// Adds what the item declares, and says whether its name is new and not `clk`.
fn declare<'t>(scope: &mut Scope<'t>, item: &'t Item) -> Result<bool, AllocError>
    ensures new { IfOk result (λ b. b ≡ well.is_new_declaration scope.old (declaration item.now)) }
    ensures scope { OnOk result (scope.new ≡ fact.after_declaration scope.old (declaration item.now)) }
{
    match item {
        Item::Wire(x) => declare_name(scope, &x.name, signal(SignalClass::Wire, x.high)),
        Item::Register(x) => declare_name(scope, &x.name, signal(SignalClass::Register, x.high)),
        Item::Memory(x) => {
            let width = width_of(Some(x.high));
            declare_name(
                scope,
                &x.name,
                Kind::Memory {
                    width,
                    last: x.last,
                },
            )
        }
        Item::Instance(x) => declare_name(scope, &x.name, Kind::Instance),
        Item::Assign(_) | Item::Initial(_) | Item::Always(_) => Ok(true),
    }
}

/// Adds the signals at an instance's outputs, and says whether each is new.
fn drive_outputs<'t>(
    driven: &mut NameSet<'t>,
    ports: &Ports,
    connections: &'t [Connection],
) -> Result<bool, AllocError>
    ensures new { IfOk result (λ b. b ≡ well.are_new driven.old (fact.outputs ports.now connections.now)) }
    ensures driven { OnOk result (driven.new ≡ fact.after fact.with_name driven.old (fact.outputs ports.now connections.now)) }
{
    let mut new = true;
    for connection in connections {
        if is_driving(ports, connection) {
            let first = driven.add(&connection.signal)?;
            new = new && first;
        }
    }
    Ok(new)
}

/// Adds what the item drives, and says whether each is new.
fn drive<'t>(
    driven: &mut NameSet<'t>,
    interfaces: &Interfaces,
    item: &'t Item,
) -> Result<bool, AllocError>
    ensures new { IfOk result (λ b. b ≡ well.are_new driven.old (fact.drives interfaces.now item.now)) }
    ensures driven { OnOk result (driven.new ≡ fact.after fact.with_name driven.old (fact.drives interfaces.now item.now)) }
{
    match item {
        Item::Assign(x) => driven.add(&x.target),
        Item::Instance(x) => match interfaces.get(&x.module_name) {
            None => Ok(true),
            Some(interface) => drive_outputs(driven, &interface.ports, x.connections.as_slice()),
        },
        _ => Ok(true),
    }
}

/// Adds what an always block writes, and says whether each is new.
fn write<'t>(written: &mut NameSet<'t>, item: &'t Item) -> Result<bool, AllocError>
    ensures new { IfOk result (λ b. b ≡ known.writes_new written.old item.now) }
    ensures written { OnOk result (written.new ≡ fact.after fact.after_statement written.old (fact.body_of item.now)) }
{
    let body = body_of(item);
    let new = all_write_none(written, body);
    note_all_writes(written, body)?;
    Ok(new)
}

fn constants_of(item: &Item) -> &[InitialConstant]
    ensures { result.now ≡ fact.constants_of item.now }
{
    match item {
        Item::Initial(x) => x.constants.as_slice(),
        _ => &[],
    }
}

/// Adds the places of the constants, and says whether each is new.
fn give<'t>(given: &mut PlaceSet<'t>, constants: &'t [InitialConstant]) -> Result<bool, AllocError>
    ensures new { IfOk result (λ b. b ≡ well.are_new_places given.old constants.now) }
    ensures given { OnOk result (given.new ≡ fact.after fact.after_constant given.old constants.now) }
{
    let mut new = true;
    for constant in constants {
        let first = given.add(&constant.name, constant.word)?;
        new = new && first;
    }
    Ok(new)
}

/// Whether each word of the memory below `count` has its initial constant.
fn words_below(given: &PlaceSet, name: &Identifier, count: u64) -> bool
    ensures { result ≡ fact.words_below given.now name.now count }
{
    for word in 0..count {
        if !given.contains(name, Some(word)) {
            return false;
        }
    }
    true
}

impl<'t> ModuleFacts<'t> {
    /// Nothing is known.
    pub fn new(alloc: Global) -> ModuleFacts<'t>
        ensures { result ≡ known.unknown }
    {
        ModuleFacts {
            scope: Scope::new(alloc),
            driven: NameSet::new(alloc),
            written: NameSet::new(alloc),
            given: PlaceSet::new(alloc),
        }
    }

    /// Adds a port, and says whether its name is new.
    pub fn add_port(&mut self, port: &'t Port) -> Result<bool, AllocError>
        ensures new { IfOk result (λ b. b ≡ not (is_declared self.old.scope port.now.name)) }
        ensures facts { OnOk result (self.new ≡ known.after_port self.old port.now) }
    {
        self.scope.declare(&port.name, port_kind(port))
    }

    /// Adds an item, and says whether all that it declares, drives, writes and gives is new.
    pub fn add_item(&mut self, interfaces: &Interfaces, item: &'t Item) -> Result<bool, AllocError>
        ensures new { IfOk result (λ b. b ≡ known.is_new interfaces.now self.old item.now) }
        ensures facts { OnOk result (self.new ≡ known.after_item interfaces.now self.old item.now) }
    {
        let declares = declare(&mut self.scope, item)?;
        let drives = drive(&mut self.driven, interfaces, item)?;
        let writes = write(&mut self.written, item)?;
        let gives = give(&mut self.given, constants_of(item))?;
        Ok(declares && drives && writes && gives)
    }

    pub fn add_ports(&mut self, ports: &'t [Port]) -> Result<(), AllocError>
        ensures { OnOk result (self.new ≡ fact.after known.after_port self.old ports.now) }
    {
        for port in ports {
            self.add_port(port)?;
        }
        Ok(())
    }

    pub fn add_items(
        &mut self,
        interfaces: &Interfaces,
        items: &'t [Item],
    ) -> Result<(), AllocError>
        ensures { OnOk result (self.new ≡ fact.after (known.after_item interfaces.now) self.old items.now) }
    {
        for item in items {
            self.add_item(interfaces, item)?;
        }
        Ok(())
    }

    /// Whether what the item declares has its driver, its block and its initial constants, by all of its module.
    pub fn is_complete(&self, item: &Item) -> bool
        ensures { result ≡ known.is_complete self.now item.now }
    {
        match item {
            Item::Wire(x) => self.driven.contains(&x.name),
            Item::Register(x) => self.written.contains(&x.name)
                && self.given.contains(&x.name, None),
            Item::Memory(x) => {
                words_below(&self.given, &x.name, x.last)
                    && self.given.contains(&x.name, Some(x.last))
            }
            _ => true,
        }
    }

    /// Whether the port is an input or has its driver.
    pub fn is_driven(&self, port: &Port) -> bool
        ensures { result ≡ (well.is_input port.now.direction || is_known self.now.driven port.now.name) }
    {
        match port.direction {
            Direction::Input => true,
            Direction::Output => self.driven.contains(&port.name),
        }
    }
}
