// The next step of a thread.
ghost use Rattle.std.specs.Prelude.{◌≡◌, Some, [], ◌∷◌, map, slice_get, slice_set, IfOk, OnErr};
ghost use Rattle.c_program.specs.Plain.{program_of};
ghost use Rattle.thread_semantics.specs.State.{Frame as Frames, Running};
ghost use Rattle.thread_semantics.specs.Move.{returned_value, return_type, resumed, returned};
ghost use Rattle.thread_semantics.specs.Step.{with_slot, finished, written_to, acted, moved, step};
ghost use Rattle.c_evaluation.specs.Outcome.{rows_of};
ghost use Rattle.c_evaluation.specs.View.{work_of, act_of};
ghost use Rattle.c_state.specs.View.{frame_of, slot_of, barrier_of, state_of};
ghost use Rattle.c_state.specs.Change.{change_write};
ghost use Rattle.c_step_parts.specs.Plan.{Callers, gone_on, waiting, plan_of, erased};
ghost use Rattle.c_step_parts.specs.Effect.{effect_of};
ghost use Rattle.c_interpreter.specs.Stepping.{stepped_of, rest_frame, IsKept, StaysUnlessStepped, taken_into, after_taking, Resumes, with_frames};

use c_evaluation::work::{Act, Item, settle};
use c_program::tree::{Program, ReturnType};
use c_state::memory::{Change, carry_out, keep};
use c_state::state::{Barrier, Frame, Slot, State};
use c_state::threads::{all_joined, first_caller, innermost, running};
use c_step_parts::act::{Effect, effect_of_act};
use c_step_parts::plan::{Plan, next_plan};
use hls_ints::wrap;
use std::alloc::{AllocError, Global};
use std::collections::VecDeque;
use thread_semantics::{BlockedCause, MutexState, UndefinedCause};

/// What a step comes to: it is taken, it is blocked, or it is undefined.
#[derive(Clone, Copy)]
pub enum Stepped {
    Stepped,
    Blocked(BlockedCause),
    /// The offset of the statement, operand or closing brace, and the first cause.
    Undefined { offset: u32, cause: UndefinedCause },
}

/// What a call has still to do, and what becomes of the value of the one that it waited for: the local that keeps it, if one
/// does, and the value, if there is one.
#[derive(Drop)]
struct Rest<'p> {
    work: VecDeque<Item<'p>>,
    into: Option<u32>,
    value: Option<i128>,
}

/// The innermost call of a running thread goes on with this work and these values, after a change of memory.
fn slot_goes_on<'p>(
    slot: &mut Slot<'p>,
    globals: &mut Vec<Vec<i128>>,
    work: VecDeque<Item<'p>>,
    kept: Vec<i128>,
    change: Change,
)
    ensures slot { (f : Frames) (fs : Callers) → slot_of slot.old ≡ Running (f ∷ fs)
        → slot_of slot.new ≡ Running (gone_on change (work_of work.entry.items) kept.items f ∷ fs) }
    ensures globals { (f : Frames) (fs : Callers) → slot_of slot.old ≡ Running (f ∷ fs)
        → rows_of globals.new.items ≡ written_to (rows_of globals.old.items) (change_write change) }
{
    if let Slot::Running(frames) = slot {
        if let Some(frame) = frames.front_mut() {
            carry_out(&change, &mut frame.locals, globals);
            frame.work = work;
            frame.kept = kept;
        }
    }
}

/// A call begins in a running thread, whose innermost call waits for it with this work.
fn slot_enters<'p>(
    slot: &mut Slot<'p>,
    work: VecDeque<Item<'p>>,
    callee: Frame<'p>,
) -> Result<(), AllocError>
    ensures entered { IfOk result (λ _. (f : Frames) (fs : Callers) → slot_of slot.old ≡ Running (f ∷ fs) → slot_of slot.new
        ≡ Running (frame_of callee.entry ∷ waiting (work_of work.entry.items) f ∷ fs)) }
    ensures unchanged { OnErr result (slot_of slot.new ≡ slot_of slot.old) }
{
    if let Slot::Running(frames) = slot {
        frames.push_front(callee)?;
        if let Some(caller) = frames.get_mut(1) {
            caller.work = work;
            caller.kept.clear();
        }
    }
    Ok(())
}

/// The innermost call of a running thread ends, and its caller goes on.
fn slot_leaves<'p>(slot: &mut Slot<'p>, rest: Rest<'p>)
    ensures { (f g : Frames) (gs : Callers) → slot_of slot.old ≡ Running (f ∷ g ∷ gs) → slot_of slot.new ≡ Running (rest_frame rest.entry g ∷ gs) }
{
    if let Slot::Running(frames) = slot {
        frames.pop_front();
        if let Some(caller) = frames.front_mut() {
            keep(rest.into, rest.value, &mut caller.locals);
            caller.work = rest.work;
            caller.kept.clear();
        }
    }
}

/// Gives a thread id a state, where there is one of that number.
fn put_slot<'p>(slots: &mut Vec<Slot<'p>>, n: u128, slot: Slot<'p>)
    ensures { map slot_of slots.new.items ≡ slice_set (map slot_of slots.old.items) n (slot_of slot.entry) }
{
    if n < slots.len() as u128 {
        slots[n as usize] = slot;
    }
}

fn put_mutex(mutexes: &mut Vec<MutexState>, n: u128, mutex: MutexState)
    ensures { mutexes.new.items ≡ slice_set mutexes.old.items n mutex }
{
    if n < mutexes.len() as u128 {
        mutexes[n as usize] = mutex;
    }
}

fn put_barrier(barriers: &mut Vec<Barrier>, n: u128, barrier: Barrier)
    ensures { map barrier_of barriers.new.items ≡ slice_set (map barrier_of barriers.old.items) n (barrier_of barrier) }
{
    if n < barriers.len() as u128 {
        barriers[n as usize] = barrier;
    }
}

/// The innermost call of thread i goes on.
fn goes_on<'p>(s: &mut State<'p>, i: u32, work: VecDeque<Item<'p>>, kept: Vec<i128>, change: Change)
    ensures { (f : Frames) (fs : Callers) → slice_get (state_of s.old).slots i ≡ Some (Running (f ∷ fs)) → state_of s.new
        ≡ with_frames (state_of s.old) i (change_write change) (gone_on change (work_of work.entry.items) kept.items f ∷ fs) }
{
    let k = i as usize;
    if k < s.slots.len() {
        slot_goes_on(&mut s.slots[k], &mut s.globals, work, kept, change);
    }
}

/// The innermost call of thread i waits with this work.
fn waits_with<'p>(alloc: Global, s: &mut State<'p>, i: u32, work: VecDeque<Item<'p>>)
    ensures { (f : Frames) (fs : Callers) → slice_get (state_of s.old).slots i ≡ Some (Running (f ∷ fs)) → state_of s.new
        ≡ with_slot (state_of s.old) i (Running (waiting (work_of work.entry.items) f ∷ fs)) }
{
    goes_on(s, i, work, Vec::new(alloc), Change::Nothing);
}

/// A call begins in thread i.
fn enters<'p>(
    s: &mut State<'p>,
    i: u32,
    work: VecDeque<Item<'p>>,
    callee: Frame<'p>,
) -> Result<(), AllocError>
    ensures entered { IfOk result (λ _. (f : Frames) (fs : Callers) → slice_get (state_of s.old).slots i ≡ Some (Running (f ∷ fs)) → state_of s.new
        ≡ with_slot (state_of s.old) i (Running (frame_of callee.entry ∷ waiting (work_of work.entry.items) f ∷ fs))) }
    ensures unchanged { OnErr result (state_of s.new ≡ state_of s.old) }
{
    let k = i as usize;
    if k < s.slots.len() {
        slot_enters(&mut s.slots[k], work, callee)?;
    }
    Ok(())
}

/// The innermost call of thread i ends, and its caller goes on.
fn leaves<'p>(s: &mut State<'p>, i: u32, rest: Rest<'p>)
    ensures { (f g : Frames) (gs : Callers) → slice_get (state_of s.old).slots i ≡ Some (Running (f ∷ g ∷ gs)) → state_of s.new
        ≡ with_slot (state_of s.old) i (Running (rest_frame rest.entry g ∷ gs)) }
{
    let k = i as usize;
    if k < s.slots.len() {
        slot_leaves(&mut s.slots[k], rest);
    }
}

/// A value that is converted to what the function of that number returns, if that is an integer.
fn converted(program: &Program, function: u32, value: Option<i128>) -> Option<i128>
    ensures { result ≡ returned_value (return_type (slice_get (program_of program.now).functions function)) value }
{
    match program.functions.get(function as usize) {
        Some(code) => match code.returns {
            ReturnType::Integer(ty) => match value {
                Some(v) => Some(wrap(ty, v)),
                None => None,
            },
            ReturnType::Void | ReturnType::Pointer => None,
        },
        None => None,
    }
}

/// Takes off what waits for the value of a call; answers the local that keeps it, if one does.
fn taken(work: &mut VecDeque<Item>) -> Option<u32>
    ensures into { result ≡ taken_into (work_of work.old.items) }
    ensures rest { work_of work.new.items ≡ after_taking (work_of work.old.items) }
{
    match work.front() {
        None => None,
        Some(item) => match *item {
            Item::Take(into) => {
                work.pop_front();
                into
            }
            _ => None,
        },
    }
}

/// How a caller goes on with the value of a call.
#[tactic(auto, using(crate::proofs::Steps::resumed_is))]
fn resumed<'p>(caller: &Frame<'p>, value: Option<i128>) -> Result<Rest<'p>, AllocError>
    ensures { IfOk result (λ rest. rest_frame rest (frame_of caller.now) ≡ resumed value (work_of caller.now.work.items) (frame_of caller.now)) }
{
    let mut work = caller.work.clone()?;
    let into = taken(&mut work);
    settle(&mut work)?;
    Ok(Rest { work, into, value })
}

/// How the caller of the innermost call of thread i goes on with that call's value; none where it has no caller.
fn resumption<'p>(
    program: &Program,
    slots: &[Slot<'p>],
    i: u32,
    value: Option<i128>,
) -> Result<Option<Rest<'p>>, AllocError>
    ensures { IfOk result (λ r. (f : Frames) (fs : Callers) → slice_get (map slot_of slots.now) i ≡ Some (Running (f ∷ fs))
        → Resumes (program_of program.now) value f fs r) }
{
    let Some(frames) = running(slots, i as u128) else {
        return Ok(None);
    };
    let Some(callee) = innermost(frames) else {
        return Ok(None);
    };
    let Some(caller) = first_caller(frames) else {
        return Ok(None);
    };
    let value = converted(program, callee.function, value);
    let rest = resumed(caller, value)?;
    Ok(Some(rest))
}

/// The outermost call of thread i returns; where it is main, each created thread is joined.
fn end_thread(s: &mut State, i: u32, offset: u32) -> Stepped
    ensures step { stepped_of result (state_of s.new) ≡ finished (state_of s.old) i offset }
    ensures unchanged { StaysUnlessStepped result (state_of s.old) (state_of s.new) }
{
    if i != 0 {
        put_slot(&mut s.slots, u128::from(i), Slot::Finished);
        return Stepped::Stepped;
    }
    if !all_joined(s) {
        return Stepped::Undefined {
            offset,
            cause: UndefinedCause::LiveThread,
        };
    }
    put_slot(&mut s.slots, 0, Slot::Finished);
    s.ended = true;
    Stepped::Stepped
}

/// The innermost call of thread i returns.
fn returns<'p>(
    program: &'p Program,
    s: &mut State<'p>,
    i: u32,
    offset: u32,
    value: Option<i128>,
) -> Result<Stepped, AllocError>
    ensures step { IfOk result (λ r. (f : Frames) (fs : Callers) → slice_get (state_of s.old).slots i ≡ Some (Running (f ∷ fs))
        → stepped_of r (state_of s.new) ≡ moved (program_of program.now) (state_of s.old) i
        (erased (returned (program_of program.now) offset value [] f fs))) }
    ensures unchanged { IsKept result (state_of s.old) (state_of s.new) }
{
    match resumption(program, &s.slots, i, value)? {
        None => Ok(end_thread(s, i, offset)),
        Some(rest) => {
            leaves(s, i, rest);
            Ok(Stepped::Stepped)
        }
    }
}

/// The values that the innermost call of thread i keeps.
fn kept_by<'a>(slots: &'a [Slot], i: u32) -> &'a [i128]
    ensures { (f : Frames) (fs : Callers) → slice_get (map slot_of slots.now) i ≡ Some (Running (f ∷ fs)) → result.now ≡ f.kept }
{
    let Some(frames) = running(slots, i as u128) else {
        return &[];
    };
    let Some(frame) = innermost(frames) else {
        return &[];
    };
    &frame.kept
}

/// An effect, after which thread i goes on with this work.
fn take_effect<'p>(
    alloc: Global,
    s: &mut State<'p>,
    i: u32,
    offset: u32,
    effect: Effect<'p>,
    work: VecDeque<Item<'p>>,
) -> Result<Stepped, AllocError>
    ensures step { IfOk result (λ r. (f : Frames) (fs : Callers) → slice_get (state_of s.old).slots i ≡ Some (Running (f ∷ fs))
        → stepped_of r (state_of s.new) ≡ effect_of effect.entry (with_slot (state_of s.old) i (Running (waiting (work_of work.entry.items) f ∷ fs))) offset) }
    ensures unchanged { IsKept result (state_of s.old) (state_of s.new) }
{
    match effect {
        Effect::Blocks(cause) => return Ok(Stepped::Blocked(cause)),
        Effect::Undefines(cause) => return Ok(Stepped::Undefined { offset, cause }),
        Effect::Prints(text) => {
            s.output.put(text.as_slice())?;
            waits_with(alloc, s, i, work);
        }
        Effect::PutSlot(n, slot) => {
            waits_with(alloc, s, i, work);
            put_slot(&mut s.slots, n, slot);
        }
        Effect::PutMutex(n, mutex) => {
            waits_with(alloc, s, i, work);
            put_mutex(&mut s.mutexes, n, mutex);
        }
        Effect::PutBarrier(n, barrier) => {
            waits_with(alloc, s, i, work);
            put_barrier(&mut s.barriers, n, barrier);
        }
    }
    Ok(Stepped::Stepped)
}

/// An act of thread i, which then goes on with this work.
fn acts<'p>(
    alloc: Global,
    program: &'p Program,
    s: &mut State<'p>,
    i: u32,
    offset: u32,
    act: Act<'p>,
    work: VecDeque<Item<'p>>,
) -> Result<Stepped, AllocError>
    ensures step { IfOk result (λ r. (f : Frames) (fs : Callers) → slice_get (state_of s.old).slots i ≡ Some (Running (f ∷ fs))
        → stepped_of r (state_of s.new) ≡ acted (program_of program.now) (with_slot (state_of s.old) i (Running
        (waiting (work_of work.entry.items) f ∷ fs))) i offset (act_of act.entry) f.kept) }
    ensures unchanged { IsKept result (state_of s.old) (state_of s.new) }
{
    let effect = effect_of_act(alloc, program, s, i, act, kept_by(&s.slots, i))?;
    take_effect(alloc, s, i, offset, effect, work)
}

/// Carries out a plan for thread i.
fn carry_out_plan<'p>(
    alloc: Global,
    program: &'p Program,
    s: &mut State<'p>,
    i: u32,
    plan: Plan<'p>,
) -> Result<Stepped, AllocError>
    ensures step { IfOk result (λ r. (f : Frames) (fs : Callers) → slice_get (state_of s.old).slots i ≡ Some (Running (f ∷ fs))
        → stepped_of r (state_of s.new) ≡ moved (program_of program.now) (state_of s.old) i (plan_of (program_of program.now) plan.entry f fs)) }
    ensures unchanged { IsKept result (state_of s.old) (state_of s.new) }
{
    match plan {
        Plan::Onward(work, kept, change) => {
            goes_on(s, i, work, kept, change);
            Ok(Stepped::Stepped)
        }
        Plan::Enter(work, callee) => {
            enters(s, i, work, callee)?;
            Ok(Stepped::Stepped)
        }
        Plan::Return(offset, value) => returns(program, s, i, offset, value),
        Plan::Perform(offset, act, work) => acts(alloc, program, s, i, offset, act, work),
        Plan::Fault(offset, cause) => Ok(Stepped::Undefined { offset, cause }),
        Plan::Impossible => Ok(Stepped::Blocked(BlockedCause::NotRunning)),
    }
}

/// The next step of thread i, any number: a number that is no thread doesn't run. The state is changed where the step is
/// taken, and stays as it is else, also where memory is wanting.
pub fn step<'p>(
    alloc: Global,
    program: &'p Program,
    s: &mut State<'p>,
    i: u32,
) -> Result<Stepped, AllocError>
    ensures step { IfOk result (λ r. stepped_of r (state_of s.new) ≡ step (program_of program.now) (state_of s.old) i) }
    ensures unchanged { IsKept result (state_of s.old) (state_of s.new) }
{
    match next_plan(alloc, program, s, i as u128)? {
        Err(cause) => Ok(Stepped::Blocked(cause)),
        Ok(plan) => carry_out_plan(alloc, program, s, i, plan),
    }
}
