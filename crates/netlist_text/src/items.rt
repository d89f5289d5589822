// The ports and the items of a module, instances aside.

ghost use Rattle.std.specs.Prelude.{◌≡◌, [], ◌∷◌, ◌++◌, IfOk, MatchOption, OnOk, map};
ghost use Rattle.std.specs.List.{flat_map};
ghost use Rattle.netlist_text.specs.LaidOut as laid;

use crate::expressions::expression;
use crate::names::high_of;
use crate::statements::statements;
use netlist::netlist::{Memory, Module, Signal, Source};
use sqlite_items::Items;
use std::alloc::{AllocError, Global};
use verilog_tree::tree;
use verilog_tree::tree::{
    Always, Assign, Constant, Direction, Initial, InitialConstant, Item, Port, Register, Wire,
};

/// The direction of a signal's port, where it is one.
fn direction_of(signal: &Signal) -> Option<Direction>
    ensures { MatchOption result (laid.port_of signal.now ≡ []) (λ direction. laid.port_of signal.now ≡ laid.port direction signal.now ∷ []) }
{
    match &signal.source {
        Source::Input => Some(Direction::Input),
        Source::Register(_) => None,
        _ if signal.is_output => Some(Direction::Output),
        _ => None,
    }
}

/// The inputs and the outputs, in order of the signals.
pub fn ports(alloc: Global, signals: &[Signal]) -> Result<Items<Port>, AllocError>
    ensures { IfOk result (λ ports. ports ≡ flat_map laid.port_of signals.now) }
{
    let mut ports = Items::new(alloc);
    for signal in signals {
        if let Some(direction) = direction_of(signal) {
            ports.push(Port {
                direction,
                high: high_of(signal.width),
                name: signal.name.clone()?,
            })?;
        }
    }
    Ok(ports)
}

/// The wire of a signal that is no port, or its register.
fn declaration(out: &mut Items<Item>, signal: &Signal) -> Result<(), AllocError>
    ensures { OnOk result (out.new ≡ out.old ++ laid.declared signal.now) }
{
    match &signal.source {
        Source::Input => Ok(()),
        Source::Register(_) => out.push(Item::Register(Register {
            high: high_of(signal.width),
            name: signal.name.clone()?,
        })),
        _ if signal.is_output => Ok(()),
        _ => out.push(Item::Wire(Wire {
            high: high_of(signal.width),
            name: signal.name.clone()?,
        })),
    }
}

/// The wires and the registers, in order of the signals.
pub fn declarations(out: &mut Items<Item>, signals: &[Signal]) -> Result<(), AllocError>
    ensures { OnOk result (out.new ≡ out.old ++ flat_map laid.declared signals.now) }
{
    for signal in signals {
        declaration(out, signal)?;
    }
    Ok(())
}

pub fn memories(out: &mut Items<Item>, memories: &[Memory]) -> Result<(), AllocError>
    ensures { OnOk result (out.new ≡ out.old ++ map laid.memory_item memories.now) }
{
    for one in memories {
        out.push(Item::Memory(tree::Memory {
            high: one.width.saturating_sub(1),
            name: one.name.clone()?,
            last: (one.initial.len() as u64).saturating_sub(1),
        }))?;
    }
    Ok(())
}

/// The assigns, in order of their targets.
pub fn assigns(alloc: Global, out: &mut Items<Item>, parent: &Module) -> Result<(), AllocError>
    ensures { OnOk result (out.new ≡ out.old ++ flat_map (laid.assign_of parent.now) parent.now.signals) }
{
    for signal in parent.signals.as_slice() {
        if let Source::Assigned(value) = &signal.source {
            let target = signal.name.clone()?;
            let value = expression(alloc, parent, signal.width, value)?;
            out.push(Item::Assign(Assign { target, value }))?;
        }
    }
    Ok(())
}

fn register_constants(
    out: &mut Items<InitialConstant>,
    signals: &[Signal],
) -> Result<(), AllocError>
    ensures { OnOk result (out.new ≡ out.old ++ flat_map laid.register_constant signals.now) }
{
    for signal in signals {
        if let Source::Register(value) = &signal.source {
            out.push(InitialConstant {
                name: signal.name.clone()?,
                word: None,
                value: Constant {
                    width: signal.width,
                    value: *value,
                },
            })?;
        }
    }
    Ok(())
}

fn word_constants(out: &mut Items<InitialConstant>, memory: &Memory) -> Result<(), AllocError>
    ensures { OnOk result (out.new ≡ out.old ++ laid.memory_constants memory.now) }
{
    for (word, value) in memory.initial.as_slice().iter().enumerate() {
        out.push(InitialConstant {
            name: memory.name.clone()?,
            word: Some(word as u64),
            value: Constant {
                width: memory.width,
                value: *value,
            },
        })?;
    }
    Ok(())
}

fn memory_constants(out: &mut Items<InitialConstant>, memories: &[Memory]) -> Result<(), AllocError>
    ensures { OnOk result (out.new ≡ out.old ++ flat_map laid.memory_constants memories.now) }
{
    for memory in memories {
        word_constants(out, memory)?;
    }
    Ok(())
}

/// The initial constants of the registers and of the memories' words.
fn constants(alloc: Global, parent: &Module) -> Result<Items<InitialConstant>, AllocError>
    ensures { IfOk result (λ all. all ≡ laid.constants parent.now) }
{
    let mut all = Items::new(alloc);
    register_constants(&mut all, parent.signals.as_slice())?;
    memory_constants(&mut all, parent.memories.as_slice())?;
    Ok(all)
}

/// The initial block, where there are constants.
pub fn initial_block(
    alloc: Global,
    out: &mut Items<Item>,
    parent: &Module,
) -> Result<(), AllocError>
    ensures { OnOk result (out.new ≡ out.old ++ laid.block laid.initial_item (laid.constants parent.now)) }
{
    let constants = constants(alloc, parent)?;
    if constants.is_empty() {
        return Ok(());
    }
    out.push(Item::Initial(Initial { constants }))
}

/// The always block, where there are actions.
pub fn always_block(alloc: Global, out: &mut Items<Item>, parent: &Module) -> Result<(), AllocError>
    ensures { OnOk result (out.new ≡ out.old ++ laid.block laid.always_item (map (laid.statement parent.now) parent.now.actions)) }
{
    let body = statements(alloc, parent)?;
    if body.is_empty() {
        return Ok(());
    }
    out.push(Item::Always(Always { body }))
}
