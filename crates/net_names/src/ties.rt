// The signals of a module that outputs of its instances drive.

ghost use Rattle.std.specs.Prelude.{◌≡◌, ◌≤◌, ◌++◌, length, OnOk, IfOk};
ghost use Rattle.std.specs.List.{flat_map};
ghost use Rattle.netlist.specs.NetlistOf as spec;
ghost use Rattle.net_names.specs.Ties as tied;

use crate::connections::Connections;
use crate::kinds::Kinds;
use crate::names::is_side;
use crate::places::Places;
use netlist::netlist::Source;
use sqlite_items::Items;
use std::alloc::{AllocError, Global};
use std::marker::Model;
use verilog_tree::name::Identifier;
use verilog_tree::tree::{Instance, Item, Port};

/// The name of a signal, and the instance and the port that it is tied to.
#[derive(Clone, Copy)]
pub struct Tie<'n> {
    pub name: &'n [u8],
    pub instance: usize,
    pub port: usize,
}

/// The signals that are tied to outputs. Contracts see them in the order of the instances.
#[derive(Drop)]
pub struct Ties<'n> {
    names: Places<'n>,
    list: Items<Tie<'n>>,
}

impl<'n> Model for Ties<'n> {
    ghost use Rattle.std.specs.Prelude.{◌≡◌, List};
    ghost use Rattle.net_names.specs.Ties.{Tied, ties_of, tied_names};

    ghost Value = { List Tied };

    ghost view = { λ t. ties_of t.list };

    ghost invariant = { λ t. t.names ≡ tied_names (ties_of t.list) };
}

/// Adds what is tied to the outputs among the ports of an instance, of which the first has a number.
fn add_ports<'n>(
    ties: &mut Items<Tie<'n>>,
    connections: &Connections<'n>,
    instance: usize,
    ports: &[Port],
    first: usize,
) -> Result<(), AllocError>
    ensures { OnOk result (tied.ties_of ties.new ≡ tied.ties_of ties.old ++ tied.port_ties connections.now instance ports.now first) }
{
    let mut number = first;
    for port in ports {
        if is_side(port, false) {
            let name = connections.signal(&port.name);
            ties.push(Tie {
                name,
                instance,
                port: number,
            })?;
            number = number.checked_add(1).ok_or(AllocError)?;
        }
    }
    Ok(())
}

/// Adds what is tied to the outputs of an instance, which has a number in its module.
fn add_instance<'n>(
    alloc: Global,
    kinds: &Kinds<'n>,
    before: usize,
    ties: &mut Items<Tie<'n>>,
    number: usize,
    instance: &'n Instance,
) -> Result<(), AllocError>
    requires { before ≤ length kinds.now }
    ensures { OnOk result (tied.ties_of ties.new ≡ tied.ties_of ties.old ++ tied.instance_ties kinds.now before number instance.now) }
{
    match kinds.get(before, &instance.module_name) {
        None => Ok(()),
        Some(kind) => {
            let connections = Connections::of(alloc, instance.connections.as_slice())?;
            let ports = kind.module.ports.as_slice();
            add_ports(ties, &connections, number, ports, kind.first_output)
        }
    }
}

/// What is tied to the outputs of the instances among these items, of which the first has number 0.
fn all_ties<'n>(
    alloc: Global,
    kinds: &Kinds<'n>,
    before: usize,
    items: &'n [Item],
) -> Result<Items<Tie<'n>>, AllocError>
    requires { before ≤ length kinds.now }
    ensures { IfOk result (λ ties. tied.ties_of ties ≡ tied.all_ties kinds.now before (flat_map (λ x. spec.some (spec.instance_item x)) items.now) 0) }
{
    let mut ties = Items::new(alloc);
    let mut number = 0;
    for item in items {
        if let Item::Instance(instance) = item {
            add_instance(alloc, kinds, before, &mut ties, number, instance)?;
            number += 1;
        }
    }
    Ok(ties)
}

impl<'n> Ties<'n> {
    /// What is tied to the outputs of the instances among these items, of the modules before one.
    pub fn of(
        alloc: Global,
        kinds: &Kinds<'n>,
        before: usize,
        items: &'n [Item],
    ) -> Result<Ties<'n>, AllocError>
        requires { before ≤ length kinds.now }
        ensures { IfOk result (λ t. t ≡ tied.all_ties kinds.now before (flat_map (λ x. spec.some (spec.instance_item x)) items.now) 0) }
    {
        let list = all_ties(alloc, kinds, before, items)?;
        let mut names = Items::new(alloc);
        let ties = list.as_slice();
        for tie in ties {
            names.push(tie.name)?;
        }
        let names = Places::of(alloc, names)?;
        Ok(Ties { names, list })
    }

    /// The port that is tied to a name first.
    pub fn source(&self, name: &Identifier) -> Source
        ensures { result ≡ tied.tied_source self.now name.now }
    {
        match self.list.get(self.names.of_name(name)) {
            Some(tie) => Source::Port {
                instance: tie.instance,
                port: tie.port,
            },
            None => Source::Input,
        }
    }
}
