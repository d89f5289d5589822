// What a step acts on, as far as the order of steps goes.
ghost use Rattle.std.specs.Prelude.{◌≡◌, ◌∷◌, Some, slice_get, IfOk};
ghost use Rattle.c_program.specs.Plain.{program_of};
ghost use Rattle.thread_semantics.specs.State.{Frame as Frames, State as States, Running};
ghost use Rattle.thread_semantics.specs.Step.{Steps, object_operand, step};
ghost use Rattle.c_evaluation.specs.View.{act_of};
ghost use Rattle.c_state.specs.View.{barrier_of, state_of};
ghost use Rattle.c_step_parts.specs.Plan.{Callers};
ghost use Rattle.run_races.specs.Order.{next_move, let_go};
ghost use Rattle.run_check.specs.Class.{class_of_act, class_of, plan_class, released_by};

use c_evaluation::work::Act;
use c_program::tree::Program;
use c_state::state::{Barrier, State};
use c_state::threads::{innermost, running};
use c_step_parts::plan::{Plan, next_plan};
use std::alloc::{AllocError, Global};

/// What a step acts on.
#[derive(Clone, Copy)]
pub enum Class {
    /// No pthread object, and it prints nothing.
    Plain,
    /// A printf.
    Prints,
    /// Creates or joins the thread of that id.
    Creates(u128),
    Joins(u128),
    /// Acts on the mutex of that number.
    UsesMutex(u128),
    /// Initialises or destroys the barrier of that number.
    SetsBarrier(u128),
    /// Waits at the barrier of that number.
    Waits(u128),
}

/// What an act on the object of that number is.
fn class_of_act(act: &Act, n: u128) -> Class
    ensures { result ≡ class_of_act (act_of act.now) n }
{
    match act {
        Act::Print(_) => Class::Prints,
        Act::Create(_) => Class::Creates(n),
        Act::Join => Class::Joins(n),
        Act::MutexInit | Act::MutexDestroy | Act::MutexLock | Act::MutexUnlock => Class::UsesMutex(
            n,
        ),
        Act::BarrierInit | Act::BarrierDestroy => Class::SetsBarrier(n),
        Act::BarrierWait => Class::Waits(n),
    }
}

/// The number of the object of an act on these operands.
fn object_operand(operands: &[i128]) -> u128
    ensures { result ≡ object_operand operands.now }
{
    match operands {
        [] => 0,
        [n, ..] => n.unsigned_abs(),
    }
}

/// The number of the object of the next act of a running thread: the operand that its innermost call keeps.
fn next_object(state: &State, thread: u32) -> u128
    ensures { (f : Frames) (fs : Callers) → slice_get (state_of state.now).slots thread ≡ Some (Running (f ∷ fs)) → result ≡ object_operand f.kept }
{
    let Some(frames) = running(&state.slots, u128::from(thread)) else {
        return 0;
    };
    match innermost(frames) {
        None => 0,
        Some(frame) => object_operand(&frame.kept),
    }
}

/// What a step by this plan acts on, where its object has that number.
fn class_of_plan(plan: &Plan, n: u128) -> Class
    ensures { result ≡ plan_class plan.now n }
{
    match plan {
        Plan::Perform(_, act, _) => class_of_act(act, n),
        Plan::Onward(_, _, _) => Class::Plain,
        Plan::Enter(_, _) => Class::Plain,
        Plan::Return(_, _) => Class::Plain,
        Plan::Fault(_, _) => Class::Plain,
        Plan::Impossible => Class::Plain,
    }
}

/// What the next step of a thread acts on, where it is taken.
pub fn next_class<'p>(
    alloc: Global,
    program: &'p Program,
    state: &State<'p>,
    thread: u32,
) -> Result<Class, AllocError>
    ensures { IfOk result (λ c. (t : States) → step (program_of program.now) (state_of state.now) thread ≡ Steps t
        → c ≡ class_of (next_move (program_of program.now) (state_of state.now) thread)) }
{
    match next_plan(alloc, program, state, u128::from(thread))? {
        Err(_) => Ok(Class::Plain),
        Ok(plan) => Ok(class_of_plan(&plan, next_object(state, thread))),
    }
}

/// The threads that a barrier lets go where a thread comes to it.
fn let_go(alloc: Global, barrier: &Barrier, thread: u32) -> Result<Vec<u32>, AllocError>
    ensures { IfOk result (λ list. list.items ≡ let_go thread (Some (barrier_of barrier.now))) }
{
    let mut list = Vec::new(alloc);
    if let Barrier::Awaits(count, waiters) = barrier {
        if waiters.len() as u128 + 1 == count.unsigned_abs() {
            list.push(thread)?;
            list.extend_from_slice(waiters)?;
        }
    }
    Ok(list)
}

/// The threads that a barrier lets go by such a step of a thread.
pub fn released_by(
    alloc: Global,
    state: &State,
    thread: u32,
    class: Class,
) -> Result<Vec<u32>, AllocError>
    ensures { IfOk result (λ list. list.items ≡ released_by (state_of state.now) thread class) }
{
    if let Class::Waits(n) = class {
        if n < state.barriers.len() as u128 {
            return let_go(alloc, &state.barriers[n as usize], thread);
        }
    }
    Ok(Vec::new(alloc))
}
