// Returns, and the closing brace of a function.

ghost use Rattle.std.specs.Prelude.{◌≡◌, ℕ, ◌+◌, ◌*◌, true, length, IfOk, IfErr, OnOk};
ghost use Rattle.c_program.specs.Plain.{expression_of};
ghost use Rattle.c_program.specs.Tree as tree;
ghost use Rattle.c_program.specs.Weight.{expression_weight};
ghost use Rattle.code_calls.specs.Calling as calling;
ghost use Rattle.code_places.specs.Doing as doing;
ghost use Rattle.code_places.specs.Labels.{IsTarget};
ghost use Rattle.code_blocks.specs.Room.{IsFull};

use block_ir::operand::Operand;
use c_program::tree::{Expression, ReturnType};
use code_blocks::expressions::lower_expression;
use code_blocks::fault::LoweringFault;
use code_blocks::open_block::OpenBlock;
use code_blocks::operands::converted;
use code_places::lowering::Lowering;
use code_places::targets::Back;
use hls_ints::CType;
use std::alloc::{AllocError, Global};

/// The value that a caller gets, if any, stands in the variable where the caller keeps it.
fn put_returned(
    alloc: Global,
    block: &mut OpenBlock,
    into: Option<u32>,
    returns: ReturnType,
    value: &Operand,
) -> Result<(), AllocError>
    ensures { IfOk result (λ _. calling.PutsReturned into returns value.now block.old block.new) }
{
    let Some(variable) = into else {
        return Ok(());
    };
    if let ReturnType::Integer(ty) = returns {
        let value = converted(alloc, value, ty)?;
        let value = converted(alloc, &value, CType::LONG)?;
        block.set(variable, value)?;
    }
    Ok(())
}

/// A step that returns the value to the caller.
fn return_value(
    alloc: Global,
    code: &mut Lowering,
    back: Back,
    value: &Operand,
) -> Result<(), LoweringFault>
    requires { IsTarget back.label code.old.stages }
    ensures returns { OnOk result (calling.Returns back value.now code.old code.new) }
    ensures full { IfErr result (IsFull (code.old.block.steps + 1)) }
{
    put_returned(alloc, &mut code.block, back.into, back.returns, value)?;
    code.block.step()?;
    code.jump(alloc, back.label)?;
    Ok(())
}

/// A return of nothing, and the closing brace.
pub fn return_nothing(alloc: Global, code: &mut Lowering) -> Result<(), LoweringFault>
    requires { doing.IsBackTarget code.old.back code.old.stages }
    ensures returns { OnOk result (calling.ReturnsNothing code.old code.new) }
    ensures full { IfErr result (IsFull (code.old.block.steps + 1)) }
{
    match code.back {
        None => {
            code.end(alloc)?;
            Ok(())
        }
        Some(back) => {
            code.block.step()?;
            code.jump(alloc, back.label)?;
            Ok(())
        }
    }
}

/// The closing brace, if the program comes to it.
pub fn return_reached(alloc: Global, code: &mut Lowering) -> Result<(), LoweringFault>
    requires { doing.IsBackTarget code.old.back code.old.stages }
    ensures closes { OnOk result (calling.Closes code.old code.new) }
    ensures full { IfErr result (IsFull (code.old.block.steps + 1)) }
{
    if !code.is_reached() {
        return Ok(());
    }
    return_nothing(alloc, code)
}

/// A return of a value. That of the thread's outermost function is never seen.
pub fn lower_return(
    alloc: Global,
    code: &mut Lowering,
    right: &Expression,
) -> Result<(), LoweringFault>
    requires back { doing.IsBackTarget code.old.back code.old.stages }
    requires reached { code.old.reached ≡ true }
    ensures labels { OnOk result ((around : _) → doing.Proceeds around code.old code.new) }
    ensures lowers { OnOk result ((offset : ℕ) (P : _) (around : _) → doing.LowersHere P around (calling.return_of offset (expression_of right.now)) code.old code.new) }
    ensures full { IfErr result (IsFull
        (length code.old.block.operations + code.old.block.steps + (3 * expression_weight (expression_of right.now) + 1))) }
{
    match code.back {
        None => {
            code.end(alloc)?;
            Ok(())
        }
        Some(back) => {
            let homes = code.homes.as_slice();
            let value = lower_expression(alloc, homes, &mut code.block, right)?;
            return_value(alloc, code, back, &value)
        }
    }
}
