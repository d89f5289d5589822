// The connections of an instance, found by their ports.

ghost use Rattle.std.specs.Prelude.{◌≡◌, IfOk};
ghost use Rattle.netlist.specs.NetlistOf as spec;

use crate::names::add_name;
use crate::places::Places;
use sqlite_items::{Items, at};
use std::alloc::{AllocError, Global};
use std::marker::Model;
use verilog_tree::name::Identifier;
use verilog_tree::tree::Connection;

/// The connections of an instance. Contracts see them in the text's order.
#[derive(Drop)]
pub struct Connections<'n> {
    ports: Places<'n>,
    list: &'n [Connection],
}

impl<'n> Model for Connections<'n> {
    ghost use Rattle.std.specs.Prelude.{◌≡◌, List};
    ghost use Rattle.verilog_tree.specs.declared.tree.Connection.{Connection};
    ghost use Rattle.net_names.specs.Found.{ports_of};

    ghost Value = { List Connection };

    ghost view = { λ c. c.list.now };

    ghost invariant = { λ c. c.ports ≡ ports_of c.list.now };
}

impl<'n> Connections<'n> {
    /// These connections.
    pub fn of(alloc: Global, list: &'n [Connection]) -> Result<Connections<'n>, AllocError>
        ensures { IfOk result (λ c. c ≡ list.now) }
    {
        let mut names = Items::new(alloc);
        for connection in list {
            add_name(&mut names, &connection.port)?;
        }
        let ports = Places::of(alloc, names)?;
        Ok(Connections { ports, list })
    }

    /// What is connected to a port first, and nothing where the port is not connected.
    pub fn signal(&self, port: &Identifier) -> &'n [u8]
        ensures { result.now ≡ spec.connected self.now port.now }
    {
        match at(self.list, self.ports.of_name(port)) {
            Some(connection) => connection.signal.as_str().as_bytes(),
            None => &[],
        }
    }
}
