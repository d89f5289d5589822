// The memories of a module, each with its initial words.

ghost use Rattle.std.specs.Prelude.{◌≡◌, ◌++◌, IfOk, OnOk};
ghost use Rattle.std.specs.List.{flat_map};
ghost use Rattle.netlist.specs.NetlistOf as spec;
ghost use Rattle.net_netlist.specs.Laid as laid;

use crate::signals::width_of;
use net_names::initials::Initials;
use netlist::netlist::Memory;
use sqlite_items::Items;
use std::alloc::{AllocError, Global};
use verilog_tree::name::Identifier;
use verilog_tree::tree::Item;

/// The constants of so many words of a memory.
fn words(
    alloc: Global,
    initials: &Initials<'_>,
    name: &Identifier,
    count: u64,
) -> Result<Items<u64>, AllocError>
    ensures { IfOk result (λ words. words ≡ spec.words_of initials.now name.now 0 count) }
{
    let mut words = Items::new(alloc);
    for word in 0..count {
        words.push(initials.number(name, Some(word)))?;
    }
    Ok(words)
}

/// Adds the item, where it is a memory.
fn add_item(
    alloc: Global,
    initials: &Initials<'_>,
    item: &Item,
    memories: &mut Items<Memory>,
) -> Result<(), AllocError>
    ensures { OnOk result (memories.new ≡ memories.old ++ laid.item_memory initials.now item.now) }
{
    match item {
        Item::Memory(x) => {
            let count = width_of(Some(x.last))?;
            let width = width_of(Some(x.high))?;
            let initial = words(alloc, initials, &x.name, count)?;
            let name = x.name.clone()?;
            memories.push(Memory {
                name,
                width,
                initial,
            })
        }
        _ => Ok(()),
    }
}

/// The memories among these items.
pub fn memories(
    alloc: Global,
    initials: &Initials<'_>,
    items: &[Item],
) -> Result<Items<Memory>, AllocError>
    ensures { IfOk result (λ memories. memories ≡ flat_map (laid.item_memory initials.now) items.now) }
{
    let mut memories = Items::new(alloc);
    for item in items {
        add_item(alloc, initials, item, &mut memories)?;
    }
    Ok(memories)
}
