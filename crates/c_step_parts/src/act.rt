// The acts of printf and of the pthread calls on the state of a program.
ghost use Rattle.std.specs.Prelude.{◌≡◌, ◌++◌, ◌∷◌, ℕ, map, slice_get, Some, None, IfOk, MatchOption};
ghost use Rattle.c_program.specs.Plain.{piece_of, pieces_of, program_of};
ghost use Rattle.thread_semantics.specs.State.{State as States, Running};
ghost use Rattle.thread_semantics.specs.Step.{printed, created, joined, mutex_initialised, mutex_destroyed, mutex_locked, mutex_unlocked};
ghost use Rattle.thread_semantics.specs.Step.{is_count, barrier_initialised, barrier_destroyed, barrier_met, object_operand, value_operand, acted, with_slot};
ghost use Rattle.c_evaluation.specs.View.{act_of};
ghost use Rattle.c_state.specs.View.{slot_of, barrier_of, state_of};
ghost use Rattle.c_step_parts.specs.Plan.{Callers};
ghost use Rattle.c_step_parts.specs.Effect.{Pieces, effect_of, waiters_after};

use c_evaluation::work::Act;
use c_program::tree::{Piece, Program};
use c_state::state::{Barrier, Slot, State, begin_thread};
use c_state::threads::slot_at;
use hls_ints::wrap;
use hls_io::{Bytes, put_dec};
use std::alloc::{AllocError, Global};
use thread_semantics::{BlockedCause, MutexState, UndefinedCause};

/// What an act does, or why it isn't done.
#[derive(Drop)]
pub enum Effect<'p> {
    /// Bytes are printed.
    Prints(Bytes),
    /// The thread id of that number, a mutex or a barrier has a new state.
    PutSlot(u128, Slot<'p>),
    PutMutex(u128, MutexState),
    PutBarrier(u128, Barrier),
    Blocks(BlockedCause),
    Undefines(UndefinedCause),
}

/// Appends a piece of a format, with the first of the operands where it is a conversion; answers the other operands.
fn put_piece<'a>(
    text: &mut Bytes,
    piece: &Piece,
    operands: &'a [i128],
) -> Result<&'a [i128], AllocError>
    ensures { IfOk result (λ rest. (pieces : Pieces) → text.old ++ printed (piece_of piece.now ∷ pieces) operands.now ≡ text.new ++ printed pieces rest.now) }
{
    match piece {
        Piece::Text(bytes) => {
            text.put(bytes)?;
            Ok(operands)
        }
        Piece::Conversion(ty) => match operands {
            [] => Ok(operands),
            [v, rest @ ..] => {
                put_dec(text, wrap(*ty, *v))?;
                Ok(rest)
            }
        },
    }
}

/// What printf prints: each value is converted to its conversion's type (C99 7.19.6.1).
fn printed(alloc: Global, format: &[Piece], operands: &[i128]) -> Result<Bytes, AllocError>
    ensures { IfOk result (λ text. text ≡ printed (pieces_of format.now) operands.now) }
{
    let mut text = Bytes::new(alloc);
    let mut rest = operands;
    for piece in format {
        rest = put_piece(&mut text, piece, rest)?;
    }
    Ok(text)
}

/// A thread is created (POSIX pthread_create).
fn create<'p>(
    alloc: Global,
    program: &'p Program,
    slots: &[Slot<'p>],
    n: u128,
    routine: u32,
    argument: i128,
) -> Result<Effect<'p>, AllocError>
    ensures { IfOk result (λ e. (s : States) (offset : ℕ) → effect_of e s offset
        ≡ created (program_of program.now) s offset routine argument n (slice_get (map slot_of slots.now) n)) }
{
    match slot_at(slots, n) {
        Some(Slot::Unused) => {
            let slot = begin_thread(alloc, program, routine, &[argument])?;
            Ok(Effect::PutSlot(n, slot))
        }
        _ => Ok(Effect::Undefines(UndefinedCause::ThreadId)),
    }
}

/// Thread i joins a thread; it waits while that one runs, and must not be it (POSIX pthread_join).
fn join<'p>(slots: &[Slot<'p>], n: u128, i: u32) -> Effect<'p>
    ensures { (s : States) (offset : ℕ) → effect_of result s offset ≡ joined s i offset n (slice_get (map slot_of slots.now) n) }
{
    match slot_at(slots, n) {
        Some(Slot::Finished) => Effect::PutSlot(n, Slot::Unused),
        Some(Slot::Running(_)) => {
            if u128::from(i) != n {
                Effect::Blocks(BlockedCause::Join)
            } else {
                Effect::Undefines(UndefinedCause::ThreadId)
            }
        }
        _ => Effect::Undefines(UndefinedCause::ThreadId),
    }
}

/// The mutex of that number.
fn mutex_at(mutexes: &[MutexState], n: u128) -> Option<MutexState>
    ensures { result ≡ slice_get mutexes.now n }
{
    if n < mutexes.len() as u128 {
        mutexes.get(n as usize).copied()
    } else {
        None
    }
}

fn mutex_init<'p>(mutexes: &[MutexState], n: u128) -> Effect<'p>
    ensures { (s : States) (offset : ℕ) → effect_of result s offset ≡ mutex_initialised s offset n (slice_get mutexes.now n) }
{
    match mutex_at(mutexes, n) {
        Some(MutexState::Uninitialised) => Effect::PutMutex(n, MutexState::Free),
        _ => Effect::Undefines(UndefinedCause::Mutex),
    }
}

fn mutex_destroy<'p>(mutexes: &[MutexState], n: u128) -> Effect<'p>
    ensures { (s : States) (offset : ℕ) → effect_of result s offset ≡ mutex_destroyed s offset n (slice_get mutexes.now n) }
{
    match mutex_at(mutexes, n) {
        Some(MutexState::Free) => Effect::PutMutex(n, MutexState::Uninitialised),
        _ => Effect::Undefines(UndefinedCause::Mutex),
    }
}

/// Thread i locks a mutex; it waits where another thread holds it (POSIX pthread_mutex_lock).
fn mutex_lock<'p>(mutexes: &[MutexState], n: u128, i: u32) -> Effect<'p>
    ensures { (s : States) (offset : ℕ) → effect_of result s offset ≡ mutex_locked s i offset n (slice_get mutexes.now n) }
{
    match mutex_at(mutexes, n) {
        Some(MutexState::Free) => Effect::PutMutex(n, MutexState::Owned(i)),
        Some(MutexState::Owned(owner)) => {
            if i != owner {
                Effect::Blocks(BlockedCause::Mutex)
            } else {
                Effect::Undefines(UndefinedCause::Mutex)
            }
        }
        _ => Effect::Undefines(UndefinedCause::Mutex),
    }
}

fn mutex_unlock<'p>(mutexes: &[MutexState], n: u128, i: u32) -> Effect<'p>
    ensures { (s : States) (offset : ℕ) → effect_of result s offset ≡ mutex_unlocked s i offset n (slice_get mutexes.now n) }
{
    match mutex_at(mutexes, n) {
        Some(MutexState::Owned(owner)) => {
            if i == owner {
                Effect::PutMutex(n, MutexState::Free)
            } else {
                Effect::Undefines(UndefinedCause::Mutex)
            }
        }
        _ => Effect::Undefines(UndefinedCause::Mutex),
    }
}

/// The barrier of that number.
fn barrier_at(barriers: &[Barrier], n: u128) -> Option<&Barrier>
    ensures { MatchOption result (slice_get (map barrier_of barriers.now) n ≡ None) (λ barrier. slice_get (map barrier_of barriers.now) n ≡ Some (barrier_of barrier.now)) }
{
    if n < barriers.len() as u128 {
        barriers.get(n as usize)
    } else {
        None
    }
}

/// Whether a barrier may have that count.
fn is_count(count: i128) -> bool
    ensures { result ≡ is_count count }
{
    1 <= count && count <= 2_147_483_647
}

fn barrier_init<'p>(alloc: Global, barriers: &[Barrier], n: u128, count: i128) -> Effect<'p>
    ensures { (s : States) (offset : ℕ) → effect_of result s offset ≡ barrier_initialised s offset count n (slice_get (map barrier_of barriers.now) n) }
{
    match barrier_at(barriers, n) {
        Some(Barrier::Uninitialised) => {
            if is_count(count) {
                Effect::PutBarrier(n, Barrier::Awaits(count, Vec::new(alloc)))
            } else {
                Effect::Undefines(UndefinedCause::Barrier)
            }
        }
        _ => Effect::Undefines(UndefinedCause::Barrier),
    }
}

fn barrier_destroy<'p>(barriers: &[Barrier], n: u128) -> Effect<'p>
    ensures { (s : States) (offset : ℕ) → effect_of result s offset ≡ barrier_destroyed s offset n (slice_get (map barrier_of barriers.now) n) }
{
    match barrier_at(barriers, n) {
        Some(Barrier::Awaits(_, waiters)) => {
            if waiters.is_empty() {
                Effect::PutBarrier(n, Barrier::Uninitialised)
            } else {
                Effect::Undefines(UndefinedCause::Barrier)
            }
        }
        _ => Effect::Undefines(UndefinedCause::Barrier),
    }
}

/// The waiters of a barrier that thread i joins: none once they are as many as its count.
fn joined_waiters(
    alloc: Global,
    count: i128,
    waiters: &[u32],
    i: u32,
) -> Result<Vec<u32>, AllocError>
    ensures { IfOk result (λ list. list.items ≡ waiters_after count waiters.now i) }
{
    let mut list = Vec::new(alloc);
    if waiters.len() as u128 + 1 != count.unsigned_abs() {
        list.push(i)?;
        list.extend_from_slice(waiters)?;
    }
    Ok(list)
}

/// Thread i comes to a barrier (POSIX pthread_barrier_wait).
fn barrier_wait<'p>(
    alloc: Global,
    barriers: &[Barrier],
    n: u128,
    i: u32,
) -> Result<Effect<'p>, AllocError>
    ensures { IfOk result (λ e. (s : States) (offset : ℕ) → effect_of e s offset ≡ barrier_met s i offset n (slice_get (map barrier_of barriers.now) n)) }
{
    match barrier_at(barriers, n) {
        Some(Barrier::Awaits(count, waiters)) => {
            let waiters = joined_waiters(alloc, *count, waiters, i)?;
            Ok(Effect::PutBarrier(n, Barrier::Awaits(*count, waiters)))
        }
        _ => Ok(Effect::Undefines(UndefinedCause::Barrier)),
    }
}

/// The number of the object of an act.
fn object_operand(operands: &[i128]) -> u128
    ensures { result ≡ object_operand operands.now }
{
    match operands {
        [] => 0,
        [n, ..] => n.unsigned_abs(),
    }
}

/// The argument or the count beside it.
fn value_operand(operands: &[i128]) -> i128
    ensures { result ≡ value_operand operands.now }
{
    match operands {
        [_, v, ..] => *v,
        _ => 0,
    }
}

/// What an act of the running thread i does on these operands.
pub fn effect_of_act<'p>(
    alloc: Global,
    program: &'p Program,
    s: &State<'p>,
    i: u32,
    act: Act<'p>,
    operands: &[i128],
) -> Result<Effect<'p>, AllocError>
    ensures { IfOk result (λ e. (old new : Callers) (offset : ℕ) → slice_get (state_of s.now).slots i ≡ Some (Running old)
        → effect_of e (with_slot (state_of s.now) i (Running new)) offset
        ≡ acted (program_of program.now) (with_slot (state_of s.now) i (Running new)) i offset (act_of act.entry) operands.now) }
{
    let n = object_operand(operands);
    match act {
        Act::Print(format) => Ok(Effect::Prints(printed(alloc, format, operands)?)),
        Act::Create(routine) => {
            create(
                alloc,
                program,
                &s.slots,
                n,
                routine,
                value_operand(operands),
            )
        }
        Act::Join => Ok(join(&s.slots, n, i)),
        Act::MutexInit => Ok(mutex_init(&s.mutexes, n)),
        Act::MutexDestroy => Ok(mutex_destroy(&s.mutexes, n)),
        Act::MutexLock => Ok(mutex_lock(&s.mutexes, n, i)),
        Act::MutexUnlock => Ok(mutex_unlock(&s.mutexes, n, i)),
        Act::BarrierInit => Ok(barrier_init(alloc, &s.barriers, n, value_operand(operands))),
        Act::BarrierDestroy => Ok(barrier_destroy(&s.barriers, n)),
        Act::BarrierWait => barrier_wait(alloc, &s.barriers, n, i),
    }
}
