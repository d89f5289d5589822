// The names that a module declares.

ghost use Rattle.std.specs.Prelude.{◌≡◌, ◌++◌, ◌∷◌, [], true, false, map, OnOk, IfOk};
ghost use Rattle.std.specs.List.{flat_map};
ghost use Rattle.net_names.specs.Tables.{names_of};
ghost use Rattle.net_names.specs.Names as declared;

use crate::places::Places;
use sqlite_items::Items;
use std::alloc::{AllocError, Global};
use verilog_tree::name::Identifier;
use verilog_tree::tree::{Direction, Item, Module, Port};

/// Adds a name.
pub(crate) fn add_name<'n>(
    names: &mut Items<&'n [u8]>,
    name: &'n Identifier,
) -> Result<(), AllocError>
    ensures { OnOk result (names_of names.new ≡ names_of names.old ++ name.now ∷ []) }
{
    names.push(name.as_str().as_bytes())
}

/// Whether a port is an input, where inputs are asked for, and else whether it is an output.
pub fn is_side(port: &Port, inputs: bool) -> bool
    ensures { result ≡ declared.is_side inputs port.now.direction }
{
    match port.direction {
        Direction::Input => inputs,
        Direction::Output => !inputs,
    }
}

fn add_ports<'n>(
    names: &mut Items<&'n [u8]>,
    ports: &'n [Port],
    inputs: bool,
) -> Result<(), AllocError>
    ensures { OnOk result (names_of names.new ≡ names_of names.old ++ declared.side_names inputs ports.now) }
{
    for port in ports {
        if is_side(port, inputs) {
            add_name(names, &port.name)?;
        }
    }
    Ok(())
}

fn add_items<'n>(names: &mut Items<&'n [u8]>, items: &'n [Item]) -> Result<(), AllocError>
    ensures { OnOk result (names_of names.new ≡ names_of names.old ++ declared.item_names items.now) }
{
    for item in items {
        match item {
            Item::Wire(x) => add_name(names, &x.name)?,
            Item::Register(x) => add_name(names, &x.name)?,
            _ => {}
        }
    }
    Ok(())
}

/// The places of a module's signals by their names.
pub(crate) fn signal_places<'n>(alloc: Global, module: &'n Module) -> Result<Places<'n>, AllocError>
    ensures { IfOk result (λ p. p ≡ declared.names_in module.now) }
{
    let mut names = Items::new(alloc);
    let ports = module.ports.as_slice();
    add_ports(&mut names, ports, true)?;
    add_items(&mut names, module.items.as_slice())?;
    add_ports(&mut names, ports, false)?;
    Places::of(alloc, names)
}

/// The places of a module's memories by their names.
pub(crate) fn memory_places<'n>(alloc: Global, items: &'n [Item]) -> Result<Places<'n>, AllocError>
    ensures { IfOk result (λ p. p ≡ flat_map declared.memory_name items.now) }
{
    let mut names = Items::new(alloc);
    for item in items {
        if let Item::Memory(x) = item {
            add_name(&mut names, &x.name)?;
        }
    }
    Places::of(alloc, names)
}
