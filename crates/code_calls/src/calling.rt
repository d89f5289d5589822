// Calls: the step that begins one, and the end of its function's code.

ghost use Rattle.std.specs.Prelude.{◌≡◌, ◌+◌, ◌*◌, length, IfOk, IfErr, OnOk};
ghost use Rattle.c_program.specs.Plain.{expressions_of, function_of};
ghost use Rattle.c_program.specs.Weight.{arguments_weight};
ghost use Rattle.code_calls.specs.Calling as calling;
ghost use Rattle.code_places.specs.Doing as doing;
ghost use Rattle.code_places.specs.Labels.{IsOpen};
ghost use Rattle.code_blocks.specs.Room.{IsFull};

use crate::returning::return_reached;
use c_program::tree::{Expression, Function};
use code_blocks::fault::LoweringFault;
use code_blocks::homes::Home;
use code_blocks::passing::pass_arguments;
use code_places::lowering::{Caller, Lowering};
use code_places::targets::Back;
use std::alloc::Global;

/// The variable for the value of a call, if a local of the caller keeps it.
fn variable_for(homes: &[Home], into: Option<u32>) -> Option<u32>
    ensures { result ≡ calling.variable_for homes.now into }
{
    match into {
        None => None,
        Some(slot) => match homes.get(slot as usize).copied() {
            Some(Home::Variable(variable)) => Some(variable),
            Some(Home::Array(_)) | None => None,
        },
    }
}

/// The step that evaluates the arguments. The code goes on in the function that is called, whose value that local of the caller
/// keeps, if it is kept.
pub fn open_call(
    alloc: Global,
    code: &mut Lowering,
    into: Option<u32>,
    number: usize,
    function: &Function,
    arguments: &[Expression],
) -> Result<Caller, LoweringFault>
    ensures opens { IfOk result (λ caller. calling.OpensCall into number (function_of function.now) (expressions_of arguments.now) caller code.old code.new) }
    ensures label { IfOk result (λ caller. caller.label ≡ length code.old.stages.labels) }
    ensures open_ { IfOk result (λ caller. IsOpen caller.label code.new.stages) }
    ensures full { IfErr result (IsFull (length code.old.block.operations + code.old.block.steps + (3 * arguments_weight (expressions_of arguments.now) + 1))) }
{
    let room = code.room(alloc, number)?;
    let seats = room.homes.as_slice();
    let homes = code.homes.as_slice();
    let variable = variable_for(homes, into);
    pass_arguments(
        alloc,
        homes,
        &mut code.block,
        seats,
        &function.locals,
        arguments,
    )?;
    code.block.step()?;
    let label = code.new_label()?;
    let back = Back {
        label,
        returns: function.returns,
        into: variable,
    };
    Ok(code.enter(room, back))
}

/// The closing brace of the function that is called. The code goes on in the caller.
pub fn close_call(alloc: Global, code: &mut Lowering, caller: Caller) -> Result<(), LoweringFault>
    requires open_ { IsOpen caller.label code.old.stages }
    requires back { doing.IsBackTarget code.old.back code.old.stages }
    ensures closes { OnOk result (calling.ClosesCall caller code.old code.new) }
    ensures full { IfErr result (IsFull (code.old.block.steps + 1)) }
{
    return_reached(alloc, code)?;
    let label = caller.label;
    code.leave(caller);
    code.begin(alloc, label)?;
    Ok(())
}
