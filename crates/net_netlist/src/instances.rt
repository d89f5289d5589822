// The instances of a module, with the signals that their ports are connected to.

ghost use Rattle.std.specs.Prelude.{◌≡◌, ◌≤◌, true, false, length, IfOk};
ghost use Rattle.std.specs.List.{flat_map};
ghost use Rattle.net_netlist.specs.Laid as laid;

use net_names::connections::Connections;
use net_names::kinds::{Kind, Kinds};
use net_names::names::is_side;
use net_names::places::Places;
use netlist::netlist::Instance;
use sqlite_items::Items;
use std::alloc::{AllocError, Global};
use verilog_tree::tree;
use verilog_tree::tree::{Connection, Item, Port};

/// The signals that the ports of one side are connected to.
fn side_places(
    alloc: Global,
    signals: &Places<'_>,
    connections: &Connections<'_>,
    inputs: bool,
    ports: &[Port],
) -> Result<Items<usize>, AllocError>
    ensures { IfOk result (λ places. places ≡ flat_map (laid.port_place signals.now connections.now inputs) ports.now) }
{
    let mut places = Items::new(alloc);
    for port in ports {
        if is_side(port, inputs) {
            places.push(signals.at(connections.signal(&port.name)))?;
        }
    }
    Ok(places)
}

/// The same of an instance of a module, if there is that module.
fn places(
    alloc: Global,
    signals: &Places<'_>,
    connections: &Connections<'_>,
    inputs: bool,
    kind: Option<Kind<'_>>,
) -> Result<Items<usize>, AllocError>
    ensures { IfOk result (λ places. places ≡ laid.kind_places signals.now connections.now inputs (laid.module_of_kind kind.entry)) }
{
    match kind {
        Some(kind) => side_places(
            alloc,
            signals,
            connections,
            inputs,
            kind.module.ports.as_slice(),
        ),
        None => Ok(Items::new(alloc)),
    }
}

/// The signals that the input ports of an instance are connected to, and its output ports.
#[derive(Drop)]
struct ConnectedPorts {
    inputs: Items<usize>,
    outputs: Items<usize>,
}

fn sides(
    alloc: Global,
    signals: &Places<'_>,
    list: &[Connection],
    kind: Option<Kind<'_>>,
) -> Result<ConnectedPorts, AllocError>
    ensures inputs { IfOk result (λ s. s.inputs ≡ laid.kind_places signals.now list.now true (laid.module_of_kind kind.entry)) }
    ensures outputs { IfOk result (λ s. s.outputs ≡ laid.kind_places signals.now list.now false (laid.module_of_kind kind.entry)) }
{
    let connections = Connections::of(alloc, list)?;
    let inputs = places(alloc, signals, &connections, true, kind)?;
    let outputs = places(alloc, signals, &connections, false, kind)?;
    Ok(ConnectedPorts { inputs, outputs })
}

/// An instance of one of the modules before one, over the signals of its module.
fn instance(
    alloc: Global,
    kinds: &Kinds<'_>,
    before: usize,
    signals: &Places<'_>,
    of: &tree::Instance,
) -> Result<Instance, AllocError>
    requires { before ≤ length kinds.now }
    ensures { IfOk result (λ n. n ≡ laid.instance_at kinds.now before signals.now of.now) }
{
    let kind = kinds.get(before, &of.module_name);
    let name = of.name.clone()?;
    let ConnectedPorts { inputs, outputs } = sides(
        alloc,
        signals,
        of.connections.as_slice(),
        kind,
    )?;
    Ok(Instance {
        name,
        of: kinds.place(before, &of.module_name),
        inputs,
        outputs,
    })
}

/// The instances among these items, of the modules before one.
pub fn instances(
    alloc: Global,
    kinds: &Kinds<'_>,
    before: usize,
    signals: &Places<'_>,
    items: &[Item],
) -> Result<Items<Instance>, AllocError>
    requires { before ≤ length kinds.now }
    ensures { IfOk result (λ instances. instances ≡ flat_map (laid.item_instance kinds.now before signals.now) items.now) }
{
    let mut instances = Items::new(alloc);
    for item in items {
        if let Item::Instance(of) = item {
            instances.push(instance(alloc, kinds, before, signals, of)?)?;
        }
    }
    Ok(instances)
}
