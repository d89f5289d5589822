// The code of statements that have no others in them.

ghost use Rattle.std.specs.Prelude.{◌≡◌, ℕ, true, is_some, IfOk, OnOk, ◌+◌, ◌*◌, length, IfErr};
ghost use Rattle.c_program.specs.Plain.{returned_of, statement_of};
ghost use Rattle.c_program.specs.Tree as tree;
ghost use Rattle.c_program.specs.Weight.{returned_weight};
ghost use Rattle.code_places.specs.Doing as doing;
ghost use Rattle.code_places.specs.Needing.{IsFullFor};
ghost use Rattle.code_blocks.specs.Room.{IsFull};
ghost use Rattle.code_control.specs.Deciding.{ComesThrough, is_cut};
ghost use Rattle.ir_lower.specs.Taken.{has_turning, is_simple, is_taken};

use c_program::tree::{Expression, Statement};
use code_blocks::assignments::{lower_assignment, lower_kept, lower_update};
use code_blocks::fault::LoweringFault;
use code_calls::acts::{lower_print, lower_thread_call};
use code_calls::returning::{lower_return, return_nothing};
use code_places::lowering::Lowering;
use code_places::targets::Loop;
use std::alloc::Global;

/// A return of a value, or of nothing.
fn lower_returned(
    alloc: Global,
    code: &mut Lowering,
    right: &Option<Box<Expression>>,
) -> Result<(), LoweringFault>
    requires back { doing.IsBackTarget code.old.back code.old.stages }
    requires reached { code.old.reached ≡ true }
    ensures labels { OnOk result ((around : _) → doing.Proceeds around code.old code.new) }
    ensures lowers { IfOk result (λ _. (offset : ℕ) (P : _) (around : _) → doing.LowersHere P around (tree.Statement.Return offset (returned_of right.now)) code.old code.new) }
    ensures full { IfErr result (IsFull
        (length code.old.block.operations + code.old.block.steps + 4 * returned_weight (returned_of right.now) + 1)) }
{
    match right {
        None => return_nothing(alloc, code),
        Some(right) => lower_return(alloc, code, right),
    }
}

/// The code of a statement that has no other in it and calls no function of the program.
pub fn lower_simple(
    alloc: Global,
    code: &mut Lowering,
    around: Option<Loop>,
    statement: &Statement,
) -> Result<(), LoweringFault>
    requires simple { is_simple (statement_of statement.now) ≡ true }
    requires taken { is_taken (is_some around) (has_turning around) (statement_of statement.now) ≡ true }
    requires targets { doing.AreTargets around code.old.stages }
    requires back { doing.IsBackTarget code.old.back code.old.stages }
    requires reached { code.old.reached ≡ true }
    ensures labels { OnOk result (doing.Proceeds around code.old code.new) }
    ensures cut { OnOk result (is_cut (statement_of statement.now) ≡ true → ComesThrough code.old code.new) }
    ensures lowers { OnOk result ((P : _) → doing.LowersHere P around (statement_of statement.now) code.old code.new) }
    ensures full { IfErr result (λ fault. (P : _) (depth : ℕ) → IsFullFor P depth (statement_of statement.now) code.old fault) }
{
    match statement {
        Statement::Done => Ok(()),
        Statement::Empty => Ok(()),
        Statement::Label(_, _) => Ok(()),
        Statement::Declare(_, _, _) => code.block.step(),
        Statement::Assign(_, place, right) => {
            let homes = code.homes.as_slice();
            lower_assignment(alloc, homes, &mut code.block, place, right)
        }
        Statement::Update(_, place, operator, ty, right) => {
            let homes = code.homes.as_slice();
            lower_update(alloc, homes, &mut code.block, place, *operator, *ty, right)
        }
        Statement::Keep(_, slot, ty, operand) => {
            code.begin_stage(alloc)?;
            let homes = code.homes.as_slice();
            lower_kept(alloc, homes, &mut code.block, *slot, *ty, operand)
        }
        Statement::Break => {
            let Some(labels) = around else {
                unreachable!();
            };
            code.jump(alloc, labels.leaving)?;
            Ok(())
        }
        Statement::Continue => {
            let Some(labels) = around else {
                unreachable!();
            };
            let Some(turning) = labels.turning else {
                unreachable!();
            };
            code.jump(alloc, turning)?;
            Ok(())
        }
        Statement::Return(_, right) => lower_returned(alloc, code, right),
        Statement::Print(_, format, arguments) => lower_print(alloc, code, format, arguments),
        Statement::Thread(_, call) => lower_thread_call(alloc, code, call),
        _ => unreachable!(),
    }
}
