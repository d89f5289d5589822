// What the statements of always blocks do, each under the conditions round it.

ghost use Rattle.std.specs.Prelude.{◌≡◌, ◌++◌, ◌∷◌, [], map, IfOk, OnOk};
ghost use Rattle.std.specs.List.{flat_map};
ghost use Rattle.netlist.specs.NetlistOf as spec;
ghost use Rattle.net_netlist.specs.Actions.{action_of, argument_of, with_condition as conditions_with};

use net_names::places::Places;
use netlist::netlist::{Action, Argument, Effect};
use sqlite_items::Items;
use std::alloc::{AllocError, Global};
use verilog_tree::tree::{Statement, WriteArgument};

/// The conditions of the statements of an `if`.
fn with_condition(
    alloc: Global,
    conditions: &[usize],
    condition: usize,
) -> Result<Items<usize>, AllocError>
    ensures { IfOk result (λ inner. inner ≡ conditions_with conditions.now condition) }
{
    let mut inner = Items::from_slice(alloc, conditions)?;
    inner.push(condition)?;
    Ok(inner)
}

/// Adds an action under these conditions.
fn add_action(
    alloc: Global,
    conditions: &[usize],
    effect: Effect,
    actions: &mut Items<Action>,
) -> Result<(), AllocError>
    ensures { OnOk result (actions.new ≡ actions.old ++ action_of conditions.now effect ∷ []) }
{
    let conditions = Items::from_slice(alloc, conditions)?;
    actions.push(Action { conditions, effect })
}

fn arguments_of(
    alloc: Global,
    signals: &Places<'_>,
    arguments: &[WriteArgument],
) -> Result<Items<Argument>, AllocError>
    ensures { IfOk result (λ values. values ≡ map (argument_of signals.now) arguments.now) }
{
    let mut values = Items::new(alloc);
    for argument in arguments {
        let value = match argument {
            WriteArgument::Unsigned(name) => Argument::Unsigned(signals.of_name(name)),
            WriteArgument::Signed(name) => Argument::Signed(signals.of_name(name)),
        };
        values.push(value)?;
    }
    Ok(values)
}

/// Adds the actions of a statement under these conditions.
#[cycle(actions)]
#[tactic(auto, using(crate::proofs::Cases::actions_set, crate::proofs::Cases::actions_store, crate::proofs::Cases::actions_write, crate::proofs::Cases::actions_if))]
fn add_statement(
    alloc: Global,
    signals: &Places<'_>,
    memories: &Places<'_>,
    statement: &Statement,
    conditions: &[usize],
    actions: &mut Items<Action>,
) -> Result<(), AllocError>
    ensures { OnOk result (actions.new ≡ actions.old ++ spec.statement_actions signals.now memories.now statement.now conditions.now) }
{
    match statement {
        Statement::Set { register, source } => {
            let effect = Effect::Set {
                register: signals.of_name(register),
                source: signals.of_name(source),
            };
            add_action(alloc, conditions, effect, actions)
        }
        Statement::Store {
            memory,
            address,
            source,
        } => {
            let effect = Effect::Store {
                memory: memories.of_name(memory),
                address: signals.of_name(address),
                source: signals.of_name(source),
            };
            add_action(alloc, conditions, effect, actions)
        }
        Statement::If { condition, body } => {
            let inner = with_condition(alloc, conditions, signals.of_name(condition))?;
            let (body, inner) = (body.as_slice(), inner.as_slice());
            add_statements(alloc, signals, memories, body, inner, actions)?;
            Ok(())
        }
        Statement::Write { text, arguments } => {
            let arguments = arguments_of(alloc, signals, arguments.as_slice())?;
            let text = text.clone()?;
            add_action(
                alloc,
                conditions,
                Effect::Write { text, arguments },
                actions,
            )
        }
    }
}

/// Adds the actions of statements under these conditions.
#[cycle(actions)]
pub fn add_statements(
    alloc: Global,
    signals: &Places<'_>,
    memories: &Places<'_>,
    statements: &[Statement],
    conditions: &[usize],
    actions: &mut Items<Action>,
) -> Result<(), AllocError>
    ensures { OnOk result (actions.new
        ≡ actions.old ++ flat_map (λ s. spec.statement_actions signals.now memories.now s conditions.now) statements.now) }
{
    for statement in statements {
        add_statement(alloc, signals, memories, statement, conditions, actions)?;
    }
    Ok(())
}
