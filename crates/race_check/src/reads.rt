// What the parts of a step read, in their order. Only indices have to be evaluated for that: an index that stands in the
// indices of other elements once for each of them.
ghost use Rattle.std.specs.Prelude.{◌≡◌, ◌++◌, ◌∷◌, [], ℕ, IfOk};
ghost use Rattle.hls_ints.specs.Types.{IntegerType};
ghost use Rattle.c_program.specs.Tree.{Expression as Expressions, Program as Programs};
ghost use Rattle.c_program.specs.declared.tree.BinaryOperator.{BinaryOperator as Operators};
ghost use Rattle.c_program.specs.Plain.{expression_of, expressions_of, place_of, object_place_of, returned_of, thread_call_of, statement_of};
ghost use Rattle.thread_semantics.specs.Memory.{Memory};
ghost use Rattle.thread_semantics.specs.Value.{value, values, load};
ghost use Rattle.thread_semantics.specs.Move.{target_of, assignment, update, object_number, with_operand, operands_of, statement_move, work_move};
ghost use Rattle.thread_semantics.specs.Races.{read_of};
ghost use Rattle.c_evaluation.specs.Outcome.{outcome, memory_of};
ghost use Rattle.c_evaluation.specs.View.{work_of};
ghost use Rattle.c_state.specs.View.{frame_of};
ghost use Rattle.c_step_parts.specs.Plan.{return_move};
ghost use Rattle.race_check.specs.Access.{touches_of};
ghost use Rattle.race_check.specs.Reads.{Callers, Works, Touches, index_in, Adds, LoadAdds, MoveAdds};

use crate::access::{Access, Location};
use c_evaluation::evaluate::{evaluate, index_within};
use c_evaluation::work::Item;
use c_program::tree::{Expression, ObjectPlace, Place, Statement, Storage, ThreadCall};
use c_state::place::located;
use c_state::state::Frame;
use sqlite_items::Items;
use std::alloc::AllocError;
use thread_semantics::UndefinedCause;

fn push_read(list: &mut Items<Access>, global: u32, index: u64) -> Result<(), AllocError>
    ensures { IfOk result (λ _. touches_of list.new ≡ touches_of list.old ++ read_of (record { variable = global; index = index }) ∷ []) }
{
    list.push(Access {
        location: Location { global, index },
        written: false,
    })
}

/// What is read of a variable.
fn load(
    storage: Storage,
    variable: u32,
    index: u64,
    list: &mut Items<Access>,
) -> Result<(), AllocError>
    ensures { IfOk result (λ _. (m : Memory) → Adds (load m storage variable index) (touches_of list.old) (touches_of list.new)) }
{
    match storage {
        Storage::Automatic => Ok(()),
        Storage::Static => push_read(list, variable, index),
    }
}

/// An index into an array of that length.
fn index_of(
    index: &Expression,
    length: u64,
    locals: &[Vec<Option<i128>>],
    globals: &[Vec<i128>],
) -> Result<u64, UndefinedCause>
    ensures { result ≡ outcome (index_in (memory_of locals.now globals.now) length (expression_of index.now)) }
{
    let i = evaluate(index, locals, globals)?;
    index_within(length, i)
}

/// What is read of an array, behind what its index reads.
fn read_element(
    storage: Storage,
    variable: u32,
    length: u64,
    index: &Expression,
    locals: &[Vec<Option<i128>>],
    globals: &[Vec<i128>],
    list: &mut Items<Access>,
) -> Result<(), AllocError>
    ensures { IfOk result (λ _. (ty : IntegerType) (start : Touches) → Adds (value (expression_of index.now) (memory_of locals.now globals.now)) start (touches_of list.old) →
        Adds (value (Expressions.Element storage variable length ty (expression_of index.now)) (memory_of locals.now globals.now)) start (touches_of list.new)) }
{
    match index_of(index, length, locals, globals) {
        Ok(j) => load(storage, variable, j, list),
        Err(_) => Ok(()),
    }
}

/// What an expression reads.
#[tactic(auto, using(crate::proofs::AddedReads::row_adds))]
fn read(
    expression: &Expression,
    locals: &[Vec<Option<i128>>],
    globals: &[Vec<i128>],
    list: &mut Items<Access>,
) -> Result<(), AllocError>
    ensures { IfOk result (λ _. Adds (value (expression_of expression.now) (memory_of locals.now globals.now)) (touches_of list.old) (touches_of list.new)) }
{
    match expression {
        Expression::Constant(_, _) => Ok(()),
        Expression::Variable(storage, variable, _) => load(*storage, *variable, 0, list),
        Expression::Element(storage, variable, length, _, index) => {
            read(index, locals, globals, list)?;
            read_element(*storage, *variable, *length, index, locals, globals, list)
        }
        Expression::Unary(_, _, operand) => read(operand, locals, globals, list),
        Expression::Binary(_, _, left, right) => {
            read(left, locals, globals, list)?;
            read(right, locals, globals, list)
        }
        Expression::Cast(_, operand) => read(operand, locals, globals, list),
        Expression::Row(outer, _, inner, _) => {
            read(outer, locals, globals, list)?;
            read(inner, locals, globals, list)
        }
        Expression::Kept(_, _) => Ok(()),
    }
}

/// What arguments read.
fn read_all(
    expressions: &[Expression],
    locals: &[Vec<Option<i128>>],
    globals: &[Vec<i128>],
    list: &mut Items<Access>,
) -> Result<(), AllocError>
    ensures { IfOk result (λ _. Adds (values (expressions_of expressions.now) (memory_of locals.now globals.now)) (touches_of list.old) (touches_of list.new)) }
{
    for expression in expressions {
        read(expression, locals, globals, list)?;
    }
    Ok(())
}

/// What the index of a place reads.
fn read_place(
    place: &Place,
    locals: &[Vec<Option<i128>>],
    globals: &[Vec<i128>],
    list: &mut Items<Access>,
) -> Result<(), AllocError>
    ensures { IfOk result (λ _. Adds (target_of (place_of place.now) (memory_of locals.now globals.now)) (touches_of list.old) (touches_of list.new)) }
{
    match place {
        Place::Scalar(_, _, _) => Ok(()),
        Place::Element(_, _, _, _, index) => read(index, locals, globals, list),
    }
}

/// The old value of a place.
fn read_old(
    place: &Place,
    locals: &[Vec<Option<i128>>],
    globals: &[Vec<i128>],
    list: &mut Items<Access>,
) -> Result<(), AllocError>
    ensures { IfOk result (λ _. LoadAdds (target_of (place_of place.now) (memory_of locals.now globals.now))
        (memory_of locals.now globals.now) (touches_of list.old) (touches_of list.new)) }
{
    match located(place, locals, globals) {
        Ok(target) => load(target.storage, target.variable, target.index, list),
        Err(_) => Ok(()),
    }
}

/// The right side, then the index.
fn read_assignment(
    place: &Place,
    right: &Expression,
    locals: &[Vec<Option<i128>>],
    globals: &[Vec<i128>],
    list: &mut Items<Access>,
) -> Result<(), AllocError>
    ensures { IfOk result (λ _. Adds (assignment (place_of place.now) (expression_of right.now) (memory_of locals.now globals.now)) (touches_of list.old) (touches_of list.new)) }
{
    read(right, locals, globals, list)?;
    read_place(place, locals, globals, list)
}

/// The right side, then the index, then the old value (C99 6.5.16.2).
fn read_update(
    place: &Place,
    right: &Expression,
    locals: &[Vec<Option<i128>>],
    globals: &[Vec<i128>],
    list: &mut Items<Access>,
) -> Result<(), AllocError>
    ensures { IfOk result
        (λ _. (operator : Operators) (ty : IntegerType) → Adds (update (place_of place.now) operator ty (expression_of right.now) (memory_of locals.now globals.now))
        (touches_of list.old) (touches_of list.new)) }
{
    read(right, locals, globals, list)?;
    read_place(place, locals, globals, list)?;
    read_old(place, locals, globals, list)
}

/// What the index of a pthread object reads.
fn read_object(
    place: &ObjectPlace,
    locals: &[Vec<Option<i128>>],
    globals: &[Vec<i128>],
    list: &mut Items<Access>,
) -> Result<(), AllocError>
    ensures { IfOk result (λ _. (first : ℕ → ℕ)
        → Adds (object_number first (object_place_of place.now) (memory_of locals.now globals.now)) (touches_of list.old) (touches_of list.new)) }
{
    match place {
        ObjectPlace::Single(_) => Ok(()),
        ObjectPlace::Element(_, _, index) => read(index, locals, globals, list),
    }
}

/// What the index of a pthread object and then an operand read.
fn read_object_and(
    place: &ObjectPlace,
    operand: &Expression,
    locals: &[Vec<Option<i128>>],
    globals: &[Vec<i128>],
    list: &mut Items<Access>,
) -> Result<(), AllocError>
    ensures { IfOk result
        (λ _. (first : ℕ → ℕ) →
        Adds (with_operand (object_number first (object_place_of place.now) (memory_of locals.now globals.now)) (expression_of operand.now) (memory_of locals.now globals.now))
        (touches_of list.old) (touches_of list.new)) }
{
    read_object(place, locals, globals, list)?;
    read(operand, locals, globals, list)
}

/// What the operands of a pthread call read.
fn read_operands(
    call: &ThreadCall,
    locals: &[Vec<Option<i128>>],
    globals: &[Vec<i128>],
    list: &mut Items<Access>,
) -> Result<(), AllocError>
    ensures { IfOk result (λ _. (P : Programs) → Adds (operands_of P (thread_call_of call.now) (memory_of locals.now globals.now)) (touches_of list.old) (touches_of list.new)) }
{
    match call {
        ThreadCall::Create(object, _, operand) => {
            read_object_and(object, operand, locals, globals, list)
        }
        ThreadCall::BarrierInit(object, operand) => {
            read_object_and(object, operand, locals, globals, list)
        }
        ThreadCall::Join(object) => read_object(object, locals, globals, list),
        ThreadCall::MutexInit(object) => read_object(object, locals, globals, list),
        ThreadCall::MutexDestroy(object) => read_object(object, locals, globals, list),
        ThreadCall::MutexLock(object) => read_object(object, locals, globals, list),
        ThreadCall::MutexUnlock(object) => read_object(object, locals, globals, list),
        ThreadCall::BarrierDestroy(object) => read_object(object, locals, globals, list),
        ThreadCall::BarrierWait(object) => read_object(object, locals, globals, list),
    }
}

/// What a return reads.
fn read_return(
    right: &Option<Box<Expression>>,
    frame: &Frame,
    globals: &[Vec<i128>],
    list: &mut Items<Access>,
) -> Result<(), AllocError>
    ensures { IfOk result (λ _. (P : Programs) (offset : ℕ) (fs : Callers) (k : Works) → MoveAdds
        (return_move P offset (returned_of right.now) (memory_of frame.now.locals.items globals.now) (frame_of frame.now) fs k) (touches_of list.old) (touches_of list.new)) }
{
    match right {
        None => Ok(()),
        Some(value) => read(value, &frame.locals, globals, list),
    }
}

/// What a statement or declarator, a cut or an operand reads.
fn read_statement(
    statement: &Statement,
    frame: &Frame,
    globals: &[Vec<i128>],
    list: &mut Items<Access>,
) -> Result<(), AllocError>
    ensures { IfOk result
        (λ _. (P : Programs) (fs : Callers) (k : Works) →
        MoveAdds (statement_move P (memory_of frame.now.locals.items globals.now) (frame_of frame.now) fs k (statement_of statement.now)) (touches_of list.old)
        (touches_of list.new)) }
{
    match statement {
        Statement::Assign(_, place, right) => {
            read_assignment(place, right, &frame.locals, globals, list)
        }
        Statement::Update(_, place, _, _, right) => {
            read_update(place, right, &frame.locals, globals, list)
        }
        Statement::Return(_, right) => read_return(right, frame, globals, list),
        Statement::Call(_, _, _, arguments) => read_all(arguments, &frame.locals, globals, list),
        Statement::Keep(_, _, _, operand) => read(operand, &frame.locals, globals, list),
        Statement::Test(_, operand) => read(operand, &frame.locals, globals, list),
        Statement::Switch(_, _, operand, _) => read(operand, &frame.locals, globals, list),
        Statement::Print(_, _, arguments) => read_all(arguments, &frame.locals, globals, list),
        Statement::Thread(_, call) => read_operands(call, &frame.locals, globals, list),
        _ => Ok(()),
    }
}

/// What the next step of a thread reads whose innermost call this is, where it is defined and no act.
pub(crate) fn read_step(
    frame: &Frame,
    globals: &[Vec<i128>],
    list: &mut Items<Access>,
) -> Result<(), AllocError>
    ensures { IfOk result
        (λ _. (P : Programs) (fs : Callers) → MoveAdds (work_move P (memory_of frame.now.locals.items globals.now) (frame_of frame.now) fs (work_of frame.now.work.items))
        (touches_of list.old) (touches_of list.new)) }
{
    match frame.work.front() {
        None => Ok(()),
        Some(item) => match *item {
            Item::Do(statement) => read_statement(statement, frame, globals, list),
            _ => Ok(()),
        },
    }
}
