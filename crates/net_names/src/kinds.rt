// The modules of a net, found by their names.

ghost use Rattle.std.specs.Prelude.{◌≡◌, ◌≤◌, true, take, IfOk, length};
ghost use Rattle.netlist.specs.NetlistOf as spec;
ghost use Rattle.net_names.specs.Names as declared;
ghost use Rattle.net_names.specs.Kinds.{IsKind};

use crate::names::{add_name, is_side};
use crate::places::Places;
use sqlite_items::{Items, at};
use std::alloc::{AllocError, Global};
use std::marker::Model;
use verilog_tree::name::Identifier;
use verilog_tree::tree::{Item, Module, Port};

/// A module, and how many signals stand before its outputs.
#[derive(Clone, Copy)]
pub struct Kind<'n> {
    pub module: &'n Module,
    pub first_output: usize,
}

/// The modules of a net. Contracts see them in the text's order.
#[derive(Drop)]
pub struct Kinds<'n> {
    names: Places<'n>,
    modules: &'n [Module],
    first_outputs: Items<usize>,
}

impl<'n> Model for Kinds<'n> {
    ghost use Rattle.std.specs.Prelude.{◌≡◌, List, map};
    ghost use Rattle.verilog_tree.specs.declared.tree.Module.{Module};
    ghost use Rattle.netlist.specs.NetlistOf.{module_names};
    ghost use Rattle.net_names.specs.Names.{first_output};
    ghost use Rattle.std.specs.Coded.{codes};
    ghost use Rattle.verilog_tree.specs.contracts.tree.Statement as statement;

    ghost Value = { List Module };

    ghost coded = { Prim.hlevel (codes, statement.the_row.coded) };

    ghost view = { λ k. k.modules.now };

    ghost invariant = { λ k. (k.names ≡ module_names k.modules.now) × (k.first_outputs ≡ map first_output k.modules.now) };
}

fn input_count(ports: &[Port]) -> usize
    ensures { result ≡ length (declared.side_names true ports.now) }
{
    let mut count = 0;
    for port in ports {
        if is_side(port, true) {
            count += 1;
        }
    }
    count
}

/// How many signals stand before the outputs of a module: its inputs, wires and registers.
fn first_output(module: &Module) -> Result<usize, AllocError>
    ensures { IfOk result (λ first. first ≡ declared.first_output module.now) }
{
    let mut count = input_count(module.ports.as_slice());
    let items = module.items.as_slice();
    for item in items {
        if matches!(item, Item::Wire(_) | Item::Register(_)) {
            count = count.checked_add(1).ok_or(AllocError)?;
        }
    }
    Ok(count)
}

impl<'n> Kinds<'n> {
    /// These modules.
    pub fn of(alloc: Global, modules: &'n [Module]) -> Result<Kinds<'n>, AllocError>
        ensures { IfOk result (λ k. k ≡ modules.now) }
    {
        let mut names = Items::new(alloc);
        let mut first_outputs = Items::new(alloc);
        for module in modules {
            add_name(&mut names, &module.name)?;
            first_outputs.push(first_output(module)?)?;
        }
        let names = Places::of(alloc, names)?;
        Ok(Kinds {
            names,
            modules,
            first_outputs,
        })
    }

    /// The first place of a name among the modules before one, and that one's where it is none of theirs.
    pub fn place(&self, before: usize, name: &Identifier) -> usize
        requires { before ≤ length self.now }
        ensures place { result ≡ spec.place (spec.module_names (take before self.now)) name.now }
        ensures within { result ≤ before }
    {
        self.names.of_name(name).min(before)
    }

    /// The first module of a name among those before one.
    pub fn get(&self, before: usize, name: &Identifier) -> Option<Kind<'n>>
        requires { before ≤ length self.now }
        ensures { IsKind self.now before name.now result }
    {
        let place = self.place(before, name);
        if place == before {
            return None;
        }
        match at(self.modules, place) {
            Some(module) => Some(Kind {
                module,
                first_output: self.first_outputs.get(place).copied().unwrap_or(0),
            }),
            None => None,
        }
    }
}
