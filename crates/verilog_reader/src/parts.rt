// At which token a part of a net stands.

ghost use Rattle.std.specs.Prelude.{◌≡◌, ◌+◌, length, take, IfOk, Some, slice_get};
ghost use Rattle.verilog_tree.specs.Grammar as g;
ghost use Rattle.verilog_tree.specs.declared.tree.Module as tree;
ghost use Rattle.verilog_reader.specs.Before.{before_name, before_port, before_item, before};

use crate::counts::{of_items, of_ports, sum};
use std::alloc::AllocError;
use verilog_tree::tree::{Module, Port};

/// How many tokens a module has before its items: the ports with a comma behind each, of which the last is none, but `)` and `;` follow.
#[tactic(auto, using(crate::proofs::TokenCounts::listed_ports))]
fn before_items(ports: &[Port]) -> Result<usize, AllocError>
    ensures { IfOk result (λ n. n ≡ length (g.commas g.port ports.now) + 5) }
{
    let listed = of_ports(ports)?.saturating_sub(1);
    sum(listed, 5)
}

#[tactic(auto, using(crate::proofs::TokenCounts::module_length))]
fn of_module(module: &Module) -> Result<usize, AllocError>
    ensures { IfOk result (λ n. n ≡ length (g.module_tokens module.now)) }
{
    let head = before_items(module.ports.as_slice())?;
    let items = of_items(module.items.as_slice())?;
    sum(sum(head, items)?, 1)
}

/// The first so many of a list.
fn first<T>(items: &[T], count: usize) -> &[T]
    ensures { result.now ≡ take count items.now }
{
    items.get(..count).unwrap_or(items)
}

fn of_modules(modules: &[Module]) -> Result<usize, AllocError>
    ensures { IfOk result (λ n. n ≡ length (g.all g.module_tokens modules.now)) }
{
    let mut count = 0;
    for module in modules {
        count = sum(count, of_module(module)?)?;
    }
    Ok(count)
}

/// How many tokens stand in the net before the name of the module with this number.
#[tactic(auto, using(crate::proofs::TokenCounts::name_place))]
pub fn name_place(modules: &[Module], number: usize) -> Result<usize, AllocError>
    ensures { IfOk result (λ n. (x : tree.Module) → slice_get modules.now number ≡ Some x → n ≡ length (before modules.now number (before_name x))) }
{
    let modules = of_modules(first(modules, number))?;
    sum(modules, 1)
}

/// How many tokens stand in the net before a port of the module with this number.
#[tactic(auto, using(crate::proofs::TokenCounts::port_place))]
pub fn port_place(modules: &[Module], number: usize, port: usize) -> Result<usize, AllocError>
    ensures { IfOk result (λ n. (x : tree.Module) → slice_get modules.now number ≡ Some x → n ≡ length (before modules.now number (before_port port x))) }
{
    let count = of_modules(first(modules, number))?;
    match modules.get(number) {
        None => Ok(count),
        Some(module) => {
            let ports = of_ports(first(module.ports.as_slice(), port))?;
            sum(sum(count, 3)?, ports)
        }
    }
}

/// How many tokens stand in the net before an item of the module with this number.
#[tactic(auto, using(crate::proofs::TokenCounts::item_place))]
pub fn item_place(modules: &[Module], number: usize, item: usize) -> Result<usize, AllocError>
    ensures { IfOk result (λ n. (x : tree.Module) → slice_get modules.now number ≡ Some x → n ≡ length (before modules.now number (before_item item x))) }
{
    let count = of_modules(first(modules, number))?;
    match modules.get(number) {
        None => Ok(count),
        Some(module) => {
            let head = before_items(module.ports.as_slice())?;
            let items = of_items(first(module.items.as_slice(), item))?;
            sum(sum(count, head)?, items)
        }
    }
}
