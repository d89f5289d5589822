// What the next step of a thread touches.
ghost use Rattle.std.specs.Prelude.{◌≡◌, ◌++◌, ◌∷◌, map, Some, slice_get, IfOk};
ghost use Rattle.c_program.specs.Tree.{Program as Programs};
ghost use Rattle.c_program.specs.Plain.{program_of};
ghost use Rattle.thread_semantics.specs.State.{Frame as Frames, Running};
ghost use Rattle.thread_semantics.specs.Move.{move};
ghost use Rattle.thread_semantics.specs.Races.{write_of, footprint};
ghost use Rattle.c_state.specs.View.{slot_of, state_of};
ghost use Rattle.race_check.specs.Access.{touch_of, touches_of};
ghost use Rattle.race_check.specs.Reads.{Callers, MoveAdds};
ghost use Rattle.race_check.specs.Planned.{plan_write, may_end, may_return, may_touch, has_callers};

use crate::access::{Access, Location};
use crate::reads::read_step;
use c_program::tree::{Program, Storage};
use c_state::memory::Change;
use c_state::state::{Slot, State};
use c_state::threads::{all_joined, first_caller, innermost, running};
use c_step_parts::plan::{Plan, next_plan};
use sqlite_items::Items;
use std::alloc::{AllocError, Global};

/// What a step by this plan writes to a global.
fn push_write(plan: &Plan, list: &mut Items<Access>) -> Result<(), AllocError>
    ensures { IfOk result (λ _. touches_of list.new ≡ touches_of list.old ++ write_of (plan_write plan.now)) }
{
    let Plan::Onward(_, _, Change::Stored(stored)) = plan else {
        return Ok(());
    };
    match stored.target.storage {
        Storage::Automatic => Ok(()),
        Storage::Static => {
            list.push(Access {
                location: Location {
                    global: stored.target.variable,
                    index: stored.target.index,
                },
                written: true,
            })
        }
    }
}

/// Whether the innermost call of thread i has a caller.
fn has_caller(slots: &[Slot], thread: usize) -> bool
    ensures { (f : Frames) (fs : Callers) → slice_get (map slot_of slots.now) thread ≡ Some (Running (f ∷ fs)) → result ≡ has_callers fs }
{
    let Some(frames) = running(slots, thread as u128) else {
        return false;
    };
    first_caller(frames).is_some()
}

/// Whether the outermost call of a thread may return: that of main only once each created thread is joined.
fn may_end(state: &State, thread: usize) -> bool
    ensures { result ≡ may_end (state_of state.now) thread }
{
    if thread == 0 { all_joined(state) } else { true }
}

/// Whether a return of the innermost call of a thread is a step.
#[tactic(auto, using(crate::proofs::StepTouches::return_cases))]
fn may_return(state: &State, thread: usize) -> bool
    ensures { (f : Frames) (fs : Callers) → slice_get (state_of state.now).slots thread ≡ Some (Running (f ∷ fs)) → result ≡ may_return (state_of state.now) thread fs }
{
    has_caller(&state.slots, thread) || may_end(state, thread)
}

/// Whether a step by this plan is taken and may touch data.
fn may_touch(state: &State, thread: usize, plan: &Plan) -> bool
    ensures { (f : Frames) (fs : Callers) → slice_get (state_of state.now).slots thread ≡ Some (Running (f ∷ fs)) → result ≡ may_touch (state_of state.now) thread plan.now fs }
{
    match plan {
        Plan::Onward(_, _, _) => true,
        Plan::Enter(_, _) => true,
        Plan::Return(_, _) => may_return(state, thread),
        Plan::Perform(_, _, _) => false,
        Plan::Fault(_, _) => false,
        Plan::Impossible => false,
    }
}

/// What the next step of a thread reads, where it is defined and no act.
fn push_reads(state: &State, thread: usize, list: &mut Items<Access>) -> Result<(), AllocError>
    ensures { IfOk result (λ _. (P : Programs) (f : Frames) (fs : Callers) → slice_get (state_of state.now).slots thread ≡ Some (Running (f ∷ fs)) →
        MoveAdds (move P (state_of state.now).globals (f ∷ fs)) (touches_of list.old) (touches_of list.new)) }
{
    let Some(frames) = running(&state.slots, thread as u128) else {
        return Ok(());
    };
    match innermost(frames) {
        None => Ok(()),
        Some(frame) => read_step(frame, &state.globals, list),
    }
}

/// What the next step of a thread touches, in its order, where it is taken and no act; nothing of any other thread, and
/// nothing where there is no such thread.
pub fn footprint<'p>(
    alloc: Global,
    program: &'p Program,
    state: &State<'p>,
    thread: usize,
) -> Result<Items<Access>, AllocError>
    ensures { IfOk result (λ list. touches_of list ≡ footprint (program_of program.now) (state_of state.now) thread) }
{
    let mut list = Items::new(alloc);
    let plan = match next_plan(alloc, program, state, thread as u128)? {
        Ok(plan) => plan,
        Err(_) => return Ok(list),
    };
    if !may_touch(state, thread, &plan) {
        return Ok(list);
    }
    push_reads(state, thread, &mut list)?;
    push_write(&plan, &mut list)?;
    Ok(list)
}
