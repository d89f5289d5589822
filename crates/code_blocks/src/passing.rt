// The arguments of a call.

ghost use Rattle.std.specs.Prelude.{◌≡◌, ◌+◌, ◌*◌, length, IfOk, IfErr};
ghost use Rattle.c_program.specs.Plain.{expression_of, expressions_of};
ghost use Rattle.c_program.specs.Weight.{arguments_weight};
ghost use Rattle.code_blocks.specs.Passing as passing;
ghost use Rattle.code_blocks.specs.Room.{IsFull};

use crate::expressions::lower_expression;
use crate::fault::LoweringFault;
use crate::homes::Home;
use crate::open_block::OpenBlock;
use crate::operands::converted;
use block_ir::operand::Operand;
use c_program::tree::{Expression, LocalVariable};
use hls_ints::CType;
use std::alloc::{AllocError, Global};

/// A value, converted to the type, stands there from now on.
fn put_there(
    alloc: Global,
    block: &mut OpenBlock,
    home: &Home,
    ty: CType,
    value: &Operand,
) -> Result<(), AllocError>
    ensures { IfOk result (λ _. passing.PutsThere home.now ty value.now block.old block.new) }
{
    if let Home::Variable(number) = home {
        let value = converted(alloc, value, ty)?;
        block.set(*number, value)?;
    }
    Ok(())
}

/// The values of a call's arguments, from left to right, go to the homes of its parameters, each converted to its parameter's
/// type (C99 6.5.2.2).
pub fn pass_arguments(
    alloc: Global,
    homes: &[Home],
    block: &mut OpenBlock,
    room: &[Home],
    locals: &[LocalVariable],
    arguments: &[Expression],
) -> Result<(), LoweringFault>
    ensures passes { IfOk result (λ _. passing.Passes homes.now room.now locals.now (expressions_of arguments.now) block.old block.new) }
    ensures typed { IfOk result (λ _. passing.WorksOnArguments homes.now room.now locals.now (expressions_of arguments.now) block.old block.new) }
    ensures full { IfErr result (IsFull (length block.old.operations + 3 * arguments_weight (expressions_of arguments.now))) }
{
    let [argument, arguments @ ..] = arguments else {
        return Ok(());
    };
    let [home, room @ ..] = room else {
        return Ok(());
    };
    let [local, locals @ ..] = locals else {
        return Ok(());
    };
    let value = lower_expression(alloc, homes, block, argument)?;
    put_there(alloc, block, home, local.ty, &value)?;
    pass_arguments(alloc, homes, block, room, locals, arguments)
}
