// Who runs, and who waits.
ghost use Rattle.std.specs.Prelude.{◌≡◌, ◌≢◌, nat_eq, Some, None, MatchOption, [], ◌∷◌, drop, map, slice_get};
ghost use Rattle.std.specs.List.{list_any, list_all};
ghost use Rattle.thread_semantics.specs.State.{Running};
ghost use Rattle.thread_semantics.specs.Step.{is_unused, created_slots, is_waiter};
ghost use Rattle.c_state.specs.View.{Calls, frame_of, slot_of, barrier_of, state_of};

use crate::state::{Barrier, Frame, Slot, State};
use std::collections::VecDeque;

/// The slot of that number.
pub fn slot_at<'a, 'p>(slots: &'a [Slot<'p>], n: u128) -> Option<&'a Slot<'p>>
    ensures { MatchOption result (slice_get (map slot_of slots.now) n ≡ None) (λ slot. slice_get (map slot_of slots.now) n ≡ Some (slot_of slot.now)) }
{
    if n < slots.len() as u128 {
        slots.get(n as usize)
    } else {
        None
    }
}

/// The calls of thread i, where it runs; the innermost is the first.
pub fn running<'a, 'p>(slots: &'a [Slot<'p>], i: u128) -> Option<&'a VecDeque<Frame<'p>>>
    ensures { MatchOption result ((fs : Calls)
        → slice_get (map slot_of slots.now) i ≢ Some (Running fs)) (λ frames. slice_get (map slot_of slots.now) i ≡ Some (Running (map frame_of frames.now.items))) }
{
    match slot_at(slots, i) {
        Some(Slot::Running(frames)) => Some(frames),
        Some(Slot::Unused) | Some(Slot::Finished) | None => None,
    }
}

/// The innermost of the calls.
pub fn innermost<'a, 'p>(frames: &'a VecDeque<Frame<'p>>) -> Option<&'a Frame<'p>>
    ensures { MatchOption result (frames.now.items ≡ []) (λ frame. frames.now.items ≡ frame.now ∷ drop 1 frames.now.items) }
{
    frames.front()
}

/// The call that the innermost one returns to.
pub fn first_caller<'a, 'p>(frames: &'a VecDeque<Frame<'p>>) -> Option<&'a Frame<'p>>
    ensures { MatchOption result (drop 1 frames.now.items ≡ []) (λ frame. drop 1 frames.now.items ≡ frame.now ∷ drop 2 frames.now.items) }
{
    frames.get(1)
}

fn all_unused(slots: &[Slot]) -> bool
    ensures { result ≡ list_all is_unused (map slot_of slots.now) }
{
    for slot in slots {
        match slot {
            Slot::Unused => {}
            Slot::Running(_) | Slot::Finished => return false,
        }
    }
    true
}

/// Whether each created thread is joined, so that main may return.
pub fn all_joined(s: &State) -> bool
    ensures { result ≡ list_all is_unused (created_slots (state_of s.now).slots) }
{
    match s.slots.as_slice() {
        [] => true,
        [_, others @ ..] => all_unused(others),
    }
}

fn is_among(i: u128, threads: &[u32]) -> bool
    ensures { result ≡ list_any (nat_eq i) threads.now }
{
    threads.iter().any(|x| i == *x as u128)
}

/// Whether thread i waits at the barrier.
fn is_waiter(i: u128, barrier: &Barrier) -> bool
    ensures { result ≡ is_waiter i (barrier_of barrier.now) }
{
    match barrier {
        Barrier::Uninitialised => false,
        Barrier::Awaits(_, waiters) => is_among(i, waiters),
    }
}

/// Whether thread i waits at a barrier.
pub fn waits(i: u128, barriers: &[Barrier]) -> bool
    ensures { result ≡ list_any (is_waiter i) (map barrier_of barriers.now) }
{
    for barrier in barriers {
        if is_waiter(i, barrier) {
            return true;
        }
    }
    false
}
