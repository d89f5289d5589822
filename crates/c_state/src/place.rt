// Where values are stored, and the operands of acts.
ghost use Rattle.std.specs.Prelude.{◌≡◌, ◌<◌, ◌^◌, ◌≤◌, ◌*◌, pos, length, take, sum_by, IfOk};
ghost use Rattle.c_program.specs.Tree.{Expression as Expressions};
ghost use Rattle.c_program.specs.Plain.{expression_of, place_of, object_place_of, thread_call_of, program_of};
ghost use Rattle.c_program.specs.declared.tree.ThreadObject.{ThreadObject as ThreadObjects};
ghost use Rattle.c_program.specs.declared.tree.MutexObject.{MutexObject as MutexObjects};
ghost use Rattle.c_program.specs.declared.tree.BarrierObject.{BarrierObject as BarrierObjects};
ghost use Rattle.thread_semantics.specs.Memory.{Gives, and_then};
ghost use Rattle.thread_semantics.specs.Value.{value, load, binary_value};
ghost use Rattle.thread_semantics.specs.Move.{target_of, assignment, update, slot_place, object_number, alone, with_operand, operands_of};
ghost use Rattle.c_evaluation.specs.Outcome.{outcome, memory_of, list_result};
ghost use Rattle.c_state.specs.Change.{ok_of, target_view, assignment_view};
ghost use Rattle.c_state.specs.Kind.{first_of, updated};

use c_evaluation::evaluate::{binary, evaluate, index_within, loaded};
use c_program::tree::{
    BarrierObject, BinaryOperator, Expression, MutexObject, ObjectPlace, Place, Program, Storage,
    ThreadCall, ThreadObject,
};
use hls_ints::{CType, wrap};
use std::alloc::{AllocError, Global};
use thread_semantics::UndefinedCause;

/// A place whose index is evaluated.
#[derive(Drop)]
pub struct Target {
    pub storage: Storage,
    pub variable: u32,
    pub index: u64,
    pub ty: CType,
}

/// A value that is to be stored, and where.
#[derive(Drop)]
pub struct Assignment {
    pub target: Target,
    pub value: i128,
}

/// A place, whose index is evaluated, or the first cause why there is none.
pub fn located(
    place: &Place,
    locals: &[Vec<Option<i128>>],
    globals: &[Vec<i128>],
) -> Result<Target, UndefinedCause>
    ensures { ok_of target_view result ≡ outcome (target_of (place_of place.now) (memory_of locals.now globals.now)) }
{
    match place {
        Place::Scalar(storage, variable, ty) => {
            Ok(Target {
                storage: *storage,
                variable: *variable,
                index: 0,
                ty: *ty,
            })
        }
        Place::Element(storage, variable, length, ty, index) => {
            let i = evaluate(index, locals, globals)?;
            let j = index_within(*length, i)?;
            Ok(Target {
                storage: *storage,
                variable: *variable,
                index: j,
                ty: *ty,
            })
        }
    }
}

/// The right side, then the index.
pub fn assigned(
    place: &Place,
    right: &Expression,
    locals: &[Vec<Option<i128>>],
    globals: &[Vec<i128>],
) -> Result<Assignment, UndefinedCause>
    ensures { ok_of assignment_view result ≡ outcome (assignment (place_of place.now) (expression_of right.now) (memory_of locals.now globals.now)) }
{
    let value = evaluate(right, locals, globals)?;
    let target = located(place, locals, globals)?;
    Ok(Assignment { target, value })
}

/// The chosen operand of `?:`, converted to a type, and the local that keeps it as a long (C99 6.5.15).
pub fn kept(
    slot: u32,
    ty: CType,
    operand: &Expression,
    locals: &[Vec<Option<i128>>],
    globals: &[Vec<i128>],
) -> Result<Assignment, UndefinedCause>
    ensures { ok_of assignment_view result ≡ outcome (assignment (slot_place slot) (Expressions.Cast ty (expression_of operand.now)) (memory_of locals.now globals.now)) }
{
    let v = evaluate(operand, locals, globals)?;
    let target = Target {
        storage: Storage::Automatic,
        variable: slot,
        index: 0,
        ty: CType::LONG,
    };
    Ok(Assignment {
        target,
        value: wrap(ty, v),
    })
}

/// The old value of a target, then the operator.
fn updated(
    target: Target,
    operator: BinaryOperator,
    ty: CType,
    right: i128,
    locals: &[Vec<Option<i128>>],
    globals: &[Vec<i128>],
) -> Result<Assignment, UndefinedCause>
    ensures { ok_of assignment_view result ≡ outcome (updated operator ty right (memory_of locals.now globals.now) (target_view target)) }
{
    let old = loaded(
        target.storage,
        target.variable,
        target.index,
        locals,
        globals,
    )?;
    let value = binary(operator, ty, old, right)?;
    Ok(Assignment { target, value })
}

/// The right side, then the index, then the old value, then the operator (C99 6.5.16.2).
pub fn update(
    place: &Place,
    operator: BinaryOperator,
    ty: CType,
    right: &Expression,
    locals: &[Vec<Option<i128>>],
    globals: &[Vec<i128>],
) -> Result<Assignment, UndefinedCause>
    ensures { ok_of assignment_view result ≡ outcome (update (place_of place.now) operator ty (expression_of right.now) (memory_of locals.now globals.now)) }
{
    let amount = evaluate(right, locals, globals)?;
    let target = located(place, locals, globals)?;
    updated(target, operator, ty, amount, locals, globals)
}

/// A kind of pthread objects.
#[derive(Clone, Copy)]
pub enum Kind {
    Thread,
    Mutex,
    Barrier,
}

pub(crate) fn thread_elements(objects: &[ThreadObject]) -> u128
    ensures count { result ≡ sum_by (λ (object : ThreadObjects). object.length) objects.now }
    ensures fits { result ≤ length objects.now * 2 ^ 64 }
{
    let mut count = 0u128;
    for object in objects {
        count += u128::from(object.length);
    }
    count
}

fn mutex_elements(objects: &[MutexObject]) -> u128
    ensures count { result ≡ sum_by (λ (object : MutexObjects). object.length) objects.now }
    ensures fits { result ≤ length objects.now * 2 ^ 64 }
{
    let mut count = 0u128;
    for object in objects {
        count += u128::from(object.length);
    }
    count
}

pub(crate) fn barrier_elements(objects: &[BarrierObject]) -> u128
    ensures count { result ≡ sum_by (λ (object : BarrierObjects). object.length) objects.now }
    ensures fits { result ≤ length objects.now * 2 ^ 64 }
{
    let mut count = 0u128;
    for object in objects {
        count += u128::from(object.length);
    }
    count
}

/// The first x items, or all where there are no more.
fn first_items<T>(items: &[T], x: u32) -> &[T]
    ensures items { result.now ≡ take x items.now }
    ensures count { length result.now ≤ x }
{
    if (x as usize) < items.len() {
        &items[..x as usize]
    } else {
        items
    }
}

/// The number of the first element of an object, among the elements of the objects of its kind.
fn first_element(program: &Program, kind: Kind, object: u32) -> i128
    ensures first { result ≡ pos (first_of (program_of program.now) kind object) }
    ensures fits { first_of (program_of program.now) kind object < 2 ^ 100 }
{
    match kind {
        Kind::Thread => 1 + thread_elements(first_items(&program.threads, object)) as i128,
        Kind::Mutex => mutex_elements(first_items(&program.mutexes, object)) as i128,
        Kind::Barrier => barrier_elements(first_items(&program.barriers, object)) as i128,
    }
}

/// The number of a pthread object among the elements of the objects of its kind.
fn number(
    program: &Program,
    kind: Kind,
    place: &ObjectPlace,
    locals: &[Vec<Option<i128>>],
    globals: &[Vec<i128>],
) -> Result<i128, UndefinedCause>
    ensures { result ≡ outcome (object_number (first_of (program_of program.now) kind) (object_place_of place.now) (memory_of locals.now globals.now)) }
{
    match place {
        ObjectPlace::Single(object) => Ok(first_element(program, kind, *object)),
        ObjectPlace::Element(object, length, index) => {
            let i = evaluate(index, locals, globals)?;
            let j = index_within(*length, i)?;
            Ok(first_element(program, kind, *object) + i128::from(j))
        }
    }
}

/// The number of an object alone.
fn one_operand(
    alloc: Global,
    program: &Program,
    kind: Kind,
    place: &ObjectPlace,
    locals: &[Vec<Option<i128>>],
    globals: &[Vec<i128>],
) -> Result<Result<Vec<i128>, UndefinedCause>, AllocError>
    ensures { IfOk result (λ r. list_result r
        ≡ outcome (alone (object_number (first_of (program_of program.now) kind) (object_place_of place.now) (memory_of locals.now globals.now)))) }
{
    match number(program, kind, place, locals, globals) {
        Err(cause) => Ok(Err(cause)),
        Ok(n) => {
            let mut list = Vec::new(alloc);
            list.push(n)?;
            Ok(Ok(list))
        }
    }
}

/// The number of an object and a value.
fn two_operands(
    alloc: Global,
    program: &Program,
    kind: Kind,
    place: &ObjectPlace,
    operand: &Expression,
    locals: &[Vec<Option<i128>>],
    globals: &[Vec<i128>],
) -> Result<Result<Vec<i128>, UndefinedCause>, AllocError>
    ensures { IfOk result (λ r. list_result r
        ≡ outcome (with_operand (object_number (first_of (program_of program.now) kind) (object_place_of place.now)
        (memory_of locals.now globals.now)) (expression_of operand.now) (memory_of locals.now globals.now))) }
{
    match number(program, kind, place, locals, globals) {
        Err(cause) => Ok(Err(cause)),
        Ok(n) => match evaluate(operand, locals, globals) {
            Err(cause) => Ok(Err(cause)),
            Ok(v) => {
                let mut list = Vec::new(alloc);
                list.push(n)?;
                list.push(v)?;
                Ok(Ok(list))
            }
        },
    }
}

/// The operands of a pthread call: the number of its object, and the argument or the count.
pub fn operands(
    alloc: Global,
    program: &Program,
    call: &ThreadCall,
    locals: &[Vec<Option<i128>>],
    globals: &[Vec<i128>],
) -> Result<Result<Vec<i128>, UndefinedCause>, AllocError>
    ensures { IfOk result (λ r. list_result r ≡ outcome (operands_of (program_of program.now) (thread_call_of call.now) (memory_of locals.now globals.now))) }
{
    match call {
        ThreadCall::Create(thread, _, argument) => {
            two_operands(
                alloc,
                program,
                Kind::Thread,
                thread,
                argument,
                locals,
                globals,
            )
        }
        ThreadCall::BarrierInit(barrier, count) => {
            two_operands(
                alloc,
                program,
                Kind::Barrier,
                barrier,
                count,
                locals,
                globals,
            )
        }
        ThreadCall::Join(thread) => {
            one_operand(alloc, program, Kind::Thread, thread, locals, globals)
        }
        ThreadCall::MutexInit(mutex)
        | ThreadCall::MutexDestroy(mutex)
        | ThreadCall::MutexLock(mutex)
        | ThreadCall::MutexUnlock(mutex) => {
            one_operand(alloc, program, Kind::Mutex, mutex, locals, globals)
        }
        ThreadCall::BarrierDestroy(barrier) | ThreadCall::BarrierWait(barrier) => {
            one_operand(alloc, program, Kind::Barrier, barrier, locals, globals)
        }
    }
}
