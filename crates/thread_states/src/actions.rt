// What an edge does.

ghost use Rattle.std.specs.Prelude.{◌≡◌, ◌∷◌, [], ◌++◌, map, IfOk, OnOk};
ghost use Rattle.thread_states.specs.Actions.{set_action, sets_from, actions_of};
ghost use Rattle.thread_slots.specs.Cells.{store_action};

use crate::control::Edge;
use block_datapath::registers::{Held, Registers};
use netlist::netlist::{Action, Effect};
use sqlite_items::{Items, at};
use std::alloc::{AllocError, Global};
use thread_slots::chains::Chains;
use thread_slots::stores::Store;

/// What an edge does: where the state is left, and where a core grants.
pub fn actions(
    alloc: Global,
    registers: &Registers,
    chains: &Chains,
    granted: &[Held],
    stores: &[Store],
    edge: &Edge,
) -> Result<Items<Action>, AllocError>
    ensures { IfOk result (λ actions. actions ≡ actions_of registers.now chains.now granted.now stores.now edge.now) }
{
    let mut actions = Items::new(alloc);
    let leave = edge.leave;
    let own = &mut actions;
    set_if(alloc, own, leave, registers.stage.register, chains.stage)?;
    set_if(alloc, own, leave, registers.state.register, edge.state)?;
    set_if(alloc, own, edge.moved, registers.beat, edge.beat)?;
    let variables = registers.variables.as_slice();
    set_all(alloc, own, leave, variables, chains.variables.as_slice())?;
    set_all(
        alloc,
        own,
        leave,
        registers.kept.as_slice(),
        chains.kept.as_slice(),
    )?;
    set_all(alloc, own, edge.moved, granted, edge.granted.as_slice())?;
    store_all(alloc, own, leave, stores)?;
    Ok(actions)
}

fn set_all(
    alloc: Global,
    actions: &mut Items<Action>,
    condition: usize,
    registers: &[Held],
    nexts: &[usize],
) -> Result<(), AllocError>
    ensures { OnOk result (actions.new ≡ actions.old ++ sets_from condition nexts.now 0 registers.now) }
{
    for (number, held) in registers.iter().enumerate() {
        if let Some(next) = at(nexts, number).copied() {
            set_if(alloc, actions, condition, held.register, next)?;
        }
    }
    Ok(())
}

fn set_if(
    alloc: Global,
    actions: &mut Items<Action>,
    condition: usize,
    register: usize,
    source: usize,
) -> Result<(), AllocError>
    ensures { OnOk result (actions.new ≡ actions.old ++ set_action condition register source ∷ []) }
{
    let conditions = Items::from_slice(alloc, &[condition])?;
    actions.push(Action {
        conditions,
        effect: Effect::Set { register, source },
    })
}

fn store_all(
    alloc: Global,
    actions: &mut Items<Action>,
    condition: usize,
    stores: &[Store],
) -> Result<(), AllocError>
    ensures { OnOk result (actions.new ≡ actions.old ++ map (store_action condition) stores.now) }
{
    for store in stores {
        let conditions = Items::from_slice(alloc, &[condition, store.condition])?;
        let effect = Effect::Store {
            memory: store.memory,
            address: store.address,
            source: store.source,
        };
        actions.push(Action { conditions, effect })?;
    }
    Ok(())
}
