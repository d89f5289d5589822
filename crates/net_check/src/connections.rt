// The rules of instances.

ghost use Rattle.std.specs.Prelude.{◌≡◌, ◌&&◌, OnOk, IfOk};
ghost use Rattle.verilog_tree.specs.Facts.{after, with_name, is_output};
ghost use Rattle.verilog_tree.specs.Rules as rule;
ghost use Rattle.verilog_tree.specs.WellFormed.{are_new};
ghost use Rattle.net_check.specs.Instances as known;

use net_rules::expressions::has_width;
use net_rules::interfaces::{Interfaces, Ports};
use net_rules::kinds::{driven_width, is_clk, is_clock, width_of};
use net_rules::names::{NameSet, Scope};
use std::alloc::{AllocError, Global};
use verilog_tree::name::Identifier;
use verilog_tree::tree::{Connection, Direction, Instance, Port};

fn connects(scope: &Scope, port: &Port, signal: &Identifier) -> bool
    ensures { result ≡ rule.connects scope.now port.now signal.now }
{
    if is_clk(&port.name) {
        return is_clk(signal) && is_clock(scope.kind(signal));
    }
    let wide = width_of(port.high);
    match port.direction {
        Direction::Input => has_width(scope, signal, wide),
        Direction::Output => wide > 0 && driven_width(scope.kind(signal)) == wide,
    }
}

fn is_taken(scope: &Scope, ports: &Ports, connection: &Connection) -> bool
    ensures { result ≡ rule.takes scope.now (rule.port_named ports.now connection.now.port) connection.now.signal }
{
    match ports.get(connection.port.as_str().as_bytes()) {
        None => false,
        Some(port) => connects(scope, port, &connection.signal),
    }
}

/// Whether each connection is to a port that takes its signal.
fn all_taken(scope: &Scope, ports: &Ports, connections: &[Connection]) -> bool
    ensures { result ≡ known.all_taken scope.now ports.now connections.now }
{
    for connection in connections {
        if !is_taken(scope, ports, connection) {
            return false;
        }
    }
    true
}

/// Adds the ports that are connected, and says whether each is new.
fn note_ports<'t>(
    connected: &mut NameSet<'t>,
    connections: &'t [Connection],
) -> Result<bool, AllocError>
    ensures new { IfOk result (λ b. b ≡ are_new connected.old (rule.connected_ports connections.now)) }
    ensures names { OnOk result (connected.new ≡ after with_name connected.old (rule.connected_ports connections.now)) }
{
    let mut new = true;
    for connection in connections {
        let first = connected.add(&connection.port)?;
        new = new && first;
    }
    Ok(new)
}

fn all_connected(connected: &NameSet, ports: &[Port]) -> bool
    ensures { result ≡ known.all_connected connected.now ports.now }
{
    for port in ports {
        if !connected.contains(&port.name) {
            return false;
        }
    }
    true
}

/// Whether each connection is to a port that takes its signal, no port is connected twice, and each port is connected.
fn are_connected(
    scope: &Scope,
    ports: &Ports,
    connections: &[Connection],
    connected: &NameSet,
    once: bool,
) -> bool
    ensures { result ≡ ((known.all_taken scope.now ports.now connections.now && once) && known.all_connected connected.now ports.now) }
{
    all_taken(scope, ports, connections) && once && all_connected(connected, ports.as_slice())
}

/// Whether each connection is to a port that takes its signal, and each port is connected once.
fn connections_right(
    alloc: Global,
    scope: &Scope,
    ports: &Ports,
    connections: &[Connection],
) -> Result<bool, AllocError>
    ensures { IfOk result (λ b. b ≡ rule.connections_right scope.now ports.now connections.now) }
{
    let mut connected = NameSet::new(alloc);
    let once = note_ports(&mut connected, connections)?;
    Ok(are_connected(scope, ports, connections, &connected, once))
}

/// Whether the module stands earlier, and the connections are right.
pub fn instance_right(
    alloc: Global,
    interfaces: &Interfaces,
    scope: &Scope,
    instance: &Instance,
) -> Result<bool, AllocError>
    ensures { IfOk result (λ b. b ≡ known.is_right interfaces.now scope.now instance.now) }
{
    match interfaces.get(&instance.module_name) {
        None => Ok(false),
        Some(interface) => connections_right(
            alloc,
            scope,
            &interface.ports,
            instance.connections.as_slice(),
        ),
    }
}

/// Whether the connection is to an output.
pub fn is_driving(ports: &Ports, connection: &Connection) -> bool
    ensures { result ≡ is_output (rule.port_named ports.now connection.now.port) }
{
    match ports.get(connection.port.as_str().as_bytes()) {
        None => false,
        Some(port) => match port.direction {
            Direction::Input => false,
            Direction::Output => true,
        },
    }
}
