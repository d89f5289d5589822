// The wires of `top`: for each thread whether it is enabled, and one for each output port of an instance.

ghost use Rattle.std.specs.Prelude.{◌≡◌, ◌+◌, ◌^◌, ◌<◌, ◌++◌, length, IfOk, OnOk};
ghost use Rattle.top_parts.specs.Parts.{each_from};
ghost use Rattle.top_parts.specs.Wires.{first_port, port_wire, enables, blocks, starts_from};

use crate::parts::Part;
use netlist::netlist::Module;
use sqlite_items::Items;
use std::alloc::{AllocError, Global};

/// What drives a wire: the whole mask, a bit of it, or a port of an instance.
#[derive(Clone, Copy)]
pub enum Wire {
    Whole,
    Bit {
        thread: usize,
    },
    Port {
        width: u64,
        instance: usize,
        port: usize,
    },
}

/// The wires from a place on, and for each instance the place of the first one that it drives.
#[derive(Drop)]
pub struct Wires {
    pub wires: Items<Wire>,
    pub starts: Items<usize>,
}

/// Whether each thread is enabled.
fn enables(alloc: Global, threads: usize) -> Result<Items<Wire>, AllocError>
    ensures { IfOk result (λ wires. wires ≡ enables threads) }
{
    if threads == 1 {
        return Items::from_slice(alloc, &[Wire::Whole]);
    }
    let mut wires = Items::new(alloc);
    for thread in 0..threads {
        wires.push(Wire::Bit { thread })?;
    }
    Ok(wires)
}

/// The number of signals of a module before its last ones.
fn first_port(modules: &[Module], part: &Part) -> usize
    ensures port { result ≡ first_port modules.now part.now }
    ensures room { result + length part.now.outputs < 2 ^ 64 }
{
    let count = part.outputs.len();
    match modules.get(part.of) {
        Some(module) => module.signals.len().saturating_sub(count),
        None => 0,
    }
}

fn push_ports(
    wires: &mut Items<Wire>,
    instance: usize,
    first: usize,
    widths: &[u64],
) -> Result<(), AllocError>
    requires room { first + length widths.now < 2 ^ 64 }
    ensures { OnOk result (wires.new ≡ wires.old ++ each_from (port_wire instance first) 0 widths.now) }
{
    for (number, width) in widths.iter().enumerate() {
        wires.push(Wire::Port {
            width: *width,
            instance,
            port: first + number,
        })?;
    }
    Ok(())
}

/// The wires of these instances, the first one at a place.
pub fn lay_wires(
    alloc: Global,
    modules: &[Module],
    parts: &[Part],
    threads: usize,
    place: usize,
) -> Result<Wires, AllocError>
    requires small { place < 2 ^ 32 }
    requires few { length (enables threads ++ blocks modules.now parts.now) < 2 ^ 32 }
    ensures wires { IfOk result (λ all. all.wires ≡ enables threads ++ blocks modules.now parts.now) }
    ensures starts { IfOk result (λ all. all.starts ≡ starts_from (place + length (enables threads)) parts.now) }
{
    let mut wires = enables(alloc, threads)?;
    let mut starts = Items::new(alloc);
    for (instance, part) in parts.iter().enumerate() {
        starts.push(place + wires.len())?;
        let first = first_port(modules, part);
        push_ports(&mut wires, instance, first, part.outputs.as_slice())?;
    }
    Ok(Wires { wires, starts })
}
