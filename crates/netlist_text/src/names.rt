// What the places of a module stand for.

ghost use Rattle.std.specs.Prelude.{◌≡◌, IfOk, map};
ghost use Rattle.netlist_text.specs.LaidOut as laid;

use netlist::netlist::Module;
use sqlite_items::Items;
use std::alloc::{AllocError, Global};
use verilog_tree::name::Identifier;
use verilog_tree::tree::Constant;

/// The name of a signal, or the module's where none has that place.
pub fn signal_name(parent: &Module, place: usize) -> Result<Identifier, AllocError>
    ensures { IfOk result (λ name. name ≡ laid.signal_name parent.now place) }
{
    match parent.signals.get(place) {
        Some(signal) => signal.name.clone(),
        None => parent.name.clone(),
    }
}

/// The name of a memory, or the module's where none has that place.
pub fn memory_name(parent: &Module, place: usize) -> Result<Identifier, AllocError>
    ensures { IfOk result (λ name. name ≡ laid.memory_name parent.now place) }
{
    match parent.memories.get(place) {
        Some(memory) => memory.name.clone(),
        None => parent.name.clone(),
    }
}

/// The names of signals, in order.
pub fn signal_names(
    alloc: Global,
    parent: &Module,
    places: &[usize],
) -> Result<Items<Identifier>, AllocError>
    ensures { IfOk result (λ names. names ≡ map (laid.signal_name parent.now) places.now) }
{
    let mut names = Items::new(alloc);
    for place in places {
        names.push(signal_name(parent, *place)?)?;
    }
    Ok(names)
}

/// The number of words of a memory as a constant of the width of an address: 0 for each of them where none has its place.
pub fn word_count(parent: &Module, memory: usize, address: usize) -> Constant
    ensures { result ≡ laid.sized (laid.signal_width parent.now address) (laid.words parent.now memory) }
{
    let width = match parent.signals.get(address) {
        Some(signal) => signal.width,
        None => 0,
    };
    let value = match parent.memories.get(memory) {
        Some(memory) => memory.initial.len() as u64,
        None => 0,
    };
    Constant { width, value }
}

/// The first number of a range, which a signal of one bit does not have.
pub fn high_of(width: u64) -> Option<u64>
    ensures { result ≡ laid.high_of width }
{
    if width > 1 { Some(width - 1) } else { None }
}
