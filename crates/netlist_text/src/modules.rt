// Instances and modules.

ghost use Rattle.std.specs.Prelude.{◌≡◌, ◌+◌, ◌-◌, ◌^◌, ◌<◌, [], ◌∷◌, ◌++◌, length, IfOk, OnOk, map};
ghost use Rattle.netlist_text.specs.LaidOut as laid;

use crate::items::{always_block, assigns, declarations, initial_block, memories, ports};
use crate::names::signal_name;
use netlist::netlist::{Instance, Module};
use sqlite_items::Items;
use std::alloc::{AllocError, Global};
use verilog_tree::tree;
use verilog_tree::tree::{Connection, Item};

/// The ports from a place on, each at its signal.
fn ties(
    out: &mut Items<Connection>,
    parent: &Module,
    of: &Module,
    first: usize,
    signals: &[usize],
) -> Result<(), AllocError>
    requires { first + length signals.now < 2 ^ 64 }
    ensures { OnOk result (out.new ≡ out.old ++ laid.with_places (laid.tie parent.now of.now) first signals.now) }
{
    for (k, signal) in signals.iter().enumerate() {
        let port = signal_name(of, first + k)?;
        let signal = signal_name(parent, *signal)?;
        out.push(Connection { port, signal })?;
    }
    Ok(())
}

/// The place of the first output port, where there are so many.
fn first_output(of: &Module, outputs: &[usize]) -> usize
    ensures place { result ≡ length of.now.signals - length outputs.now }
    ensures room { result + length outputs.now < 2 ^ 64 }
{
    of.signals.len().saturating_sub(outputs.len())
}

/// The instance, with all input ports and all output ports of its module.
fn instance(
    alloc: Global,
    modules: &[Module],
    parent: &Module,
    instance: &Instance,
) -> Result<tree::Instance, AllocError>
    ensures { IfOk result (λ x. x ≡ laid.instance_of modules.now parent.now instance.now) }
{
    let of = match sqlite_items::at(modules, instance.of) {
        Some(module) => module,
        None => parent,
    };
    let outputs = instance.outputs.as_slice();
    let first = first_output(of, outputs);
    let mut connections = Items::new(alloc);
    ties(&mut connections, parent, of, 0, instance.inputs.as_slice())?;
    ties(&mut connections, parent, of, first, outputs)?;
    let module_name = of.name.clone()?;
    let name = instance.name.clone()?;
    Ok(tree::Instance {
        module_name,
        name,
        connections,
    })
}

fn instances(
    alloc: Global,
    out: &mut Items<Item>,
    modules: &[Module],
    parent: &Module,
) -> Result<(), AllocError>
    ensures { OnOk result (out.new ≡ out.old ++ map (laid.instance_item modules.now parent.now) parent.now.instances) }
{
    for one in parent.instances.as_slice() {
        out.push(Item::Instance(instance(alloc, modules, parent, one)?))?;
    }
    Ok(())
}

fn items(alloc: Global, modules: &[Module], parent: &Module) -> Result<Items<Item>, AllocError>
    ensures { IfOk result (λ items. items ≡ laid.items modules.now parent.now) }
{
    let mut items = Items::new(alloc);
    declarations(&mut items, parent.signals.as_slice())?;
    memories(&mut items, parent.memories.as_slice())?;
    assigns(alloc, &mut items, parent)?;
    initial_block(alloc, &mut items, parent)?;
    always_block(alloc, &mut items, parent)?;
    instances(alloc, &mut items, modules, parent)?;
    Ok(items)
}

/// The text's modules, in order.
pub fn text_modules(alloc: Global, modules: &[Module]) -> Result<Items<tree::Module>, AllocError>
    ensures { IfOk result (λ all. all ≡ map (laid.text_of_module modules.now) modules.now) }
{
    let mut all = Items::new(alloc);
    for module in modules {
        let name = module.name.clone()?;
        let ports = ports(alloc, module.signals.as_slice())?;
        let items = items(alloc, modules, module)?;
        all.push(tree::Module { name, ports, items })?;
    }
    Ok(all)
}
