// The signals of a module, each with what drives it.

ghost use Rattle.std.specs.Prelude.{◌≡◌, ◌++◌, ◌∷◌, [], true, false, IfOk, OnOk};
ghost use Rattle.std.specs.List.{flat_map};
ghost use Rattle.netlist.specs.NetlistOf as spec;
ghost use Rattle.net_netlist.specs.Laid as laid;

use crate::values::value;
use net_names::names::is_side;
use net_names::tables::Tables;
use netlist::netlist::{Signal, Source};
use sqlite_items::Items;
use std::alloc::{AllocError, Global};
use verilog_tree::name::Identifier;
use verilog_tree::tree::{Item, Module, Port};

/// The number of bits of a declaration. A number of bits that does not fit is answered as want of memory.
pub fn width_of(high: Option<u64>) -> Result<u64, AllocError>
    ensures { IfOk result (λ width. width ≡ spec.width_of high) }
{
    match high {
        Some(high) => high.checked_add(1).ok_or(AllocError),
        None => Ok(1),
    }
}

/// What drives a wire or an output.
fn driver(alloc: Global, tables: &Tables<'_>, name: &Identifier) -> Result<Source, AllocError>
    ensures { IfOk result (λ source. source ≡ laid.driver tables.now name.now) }
{
    let (names, drivers) = (&tables.names, &tables.drivers);
    match drivers.assigns.get(name) {
        Some(right) => {
            let right = value(alloc, &names.signals, &names.memories, right)?;
            Ok(Source::Assigned(right))
        }
        None => Ok(drivers.ties.source(name)),
    }
}

fn add_signal(
    signals: &mut Items<Signal>,
    name: &Identifier,
    high: Option<u64>,
    is_output: bool,
    source: Source,
) -> Result<(), AllocError>
    ensures { OnOk result (signals.new ≡ signals.old ++ laid.signal name.now (spec.width_of high) is_output source ∷ []) }
{
    let width = width_of(high)?;
    let name = name.clone()?;
    signals.push(Signal {
        name,
        width,
        is_output,
        source,
    })
}

/// Adds the signal of a port, if the port is of that side.
fn add_port(
    alloc: Global,
    tables: &Tables<'_>,
    inputs: bool,
    port: &Port,
    signals: &mut Items<Signal>,
) -> Result<(), AllocError>
    ensures { OnOk result (signals.new ≡ signals.old ++ laid.port_signal tables.now inputs port.now) }
{
    if !is_side(port, inputs) {
        return Ok(());
    }
    if inputs {
        return add_signal(signals, &port.name, port.high, false, Source::Input);
    }
    let source = driver(alloc, tables, &port.name)?;
    add_signal(signals, &port.name, port.high, true, source)
}

fn add_ports(
    alloc: Global,
    tables: &Tables<'_>,
    inputs: bool,
    ports: &[Port],
    signals: &mut Items<Signal>,
) -> Result<(), AllocError>
    ensures { OnOk result (signals.new ≡ signals.old ++ flat_map (laid.port_signal tables.now inputs) ports.now) }
{
    for port in ports {
        add_port(alloc, tables, inputs, port, signals)?;
    }
    Ok(())
}

/// Adds the signals of wires and registers.
fn add_items(
    alloc: Global,
    tables: &Tables<'_>,
    items: &[Item],
    signals: &mut Items<Signal>,
) -> Result<(), AllocError>
    ensures { OnOk result (signals.new ≡ signals.old ++ flat_map (laid.item_signal tables.now) items.now) }
{
    for item in items {
        match item {
            Item::Wire(x) => {
                let source = driver(alloc, tables, &x.name)?;
                add_signal(signals, &x.name, x.high, false, source)?;
            }
            Item::Register(x) => {
                let source = Source::Register(tables.initials.number(&x.name, None));
                add_signal(signals, &x.name, x.high, false, source)?;
            }
            _ => {}
        }
    }
    Ok(())
}

/// The signals of a module: its inputs, then its wires and registers, then its outputs.
pub fn signals(
    alloc: Global,
    tables: &Tables<'_>,
    module: &Module,
) -> Result<Items<Signal>, AllocError>
    ensures { IfOk result (λ signals. signals ≡ laid.all_signals tables.now module.now) }
{
    let mut signals = Items::new(alloc);
    let ports = module.ports.as_slice();
    add_ports(alloc, tables, true, ports, &mut signals)?;
    add_items(alloc, tables, module.items.as_slice(), &mut signals)?;
    add_ports(alloc, tables, false, ports, &mut signals)?;
    Ok(signals)
}
