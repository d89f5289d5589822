// The always block of a module.

ghost use Rattle.std.specs.Prelude.{◌≡◌, IfOk, map};
ghost use Rattle.netlist_text.specs.LaidOut as laid;

use crate::names::{memory_name, signal_name};
use netlist::netlist::{Argument, Effect, Module};
use sqlite_items::Items;
use std::alloc::{AllocError, Global};
use verilog_tree::tree::{Statement, WriteArgument};

fn argument(parent: &Module, argument: Argument) -> Result<WriteArgument, AllocError>
    ensures { IfOk result (λ a. a ≡ laid.argument parent.now argument) }
{
    match argument {
        Argument::Unsigned(place) => Ok(WriteArgument::Unsigned(signal_name(parent, place)?)),
        Argument::Signed(place) => Ok(WriteArgument::Signed(signal_name(parent, place)?)),
    }
}

fn arguments(
    alloc: Global,
    parent: &Module,
    arguments: &[Argument],
) -> Result<Items<WriteArgument>, AllocError>
    ensures { IfOk result (λ all. all ≡ map (laid.argument parent.now) arguments.now) }
{
    let mut all = Items::new(alloc);
    for one in arguments {
        all.push(argument(parent, *one)?)?;
    }
    Ok(all)
}

fn effect_statement(
    alloc: Global,
    parent: &Module,
    effect: &Effect,
) -> Result<Statement, AllocError>
    ensures { IfOk result (λ x. x ≡ laid.effect_statement parent.now effect.now) }
{
    match effect {
        Effect::Set { register, source } => {
            let register = signal_name(parent, *register)?;
            let source = signal_name(parent, *source)?;
            Ok(Statement::Set { register, source })
        }
        Effect::Store {
            memory,
            address,
            source,
        } => {
            let memory = memory_name(parent, *memory)?;
            let address = signal_name(parent, *address)?;
            let source = signal_name(parent, *source)?;
            Ok(Statement::Store {
                memory,
                address,
                source,
            })
        }
        Effect::Write {
            text,
            arguments: values,
        } => {
            let text = text.clone()?;
            let arguments = arguments(alloc, parent, values.as_slice())?;
            Ok(Statement::Write { text, arguments })
        }
    }
}

/// The statement of an effect in an `if (condition) begin .. end` for each condition.
fn guarded(
    alloc: Global,
    parent: &Module,
    conditions: &[usize],
    effect: &Effect,
) -> Result<Statement, AllocError>
    ensures { IfOk result (λ x. x ≡ laid.guarded parent.now conditions.now effect.now) }
{
    match conditions {
        [] => effect_statement(alloc, parent, effect),
        [outermost, others @ ..] => {
            let condition = signal_name(parent, *outermost)?;
            let mut body = Items::new(alloc);
            body.push(guarded(alloc, parent, others, effect)?)?;
            Ok(Statement::If { condition, body })
        }
    }
}

/// A statement for each action, in order.
pub fn statements(alloc: Global, parent: &Module) -> Result<Items<Statement>, AllocError>
    ensures { IfOk result (λ body. body ≡ map (laid.statement parent.now) parent.now.actions) }
{
    let mut body = Items::new(alloc);
    for action in parent.actions.as_slice() {
        let conditions = action.conditions.as_slice();
        body.push(guarded(alloc, parent, conditions, &action.effect)?)?;
    }
    Ok(body)
}
