// Vector clocks: how many steps of each thread each thread has heard of (Fidge 1988, Mattern 1989).
ghost use Rattle.std.specs.Prelude.{◌≡◌, ◌≤◌, ◌<◌, ℕ, true, false, ⊤, MatchOption, IfOk, replicate, slice_index};
ghost use Rattle.run_check.specs.Clocks.{row, clock, is_heard, IsRaised, IsTickedRow, Ticks, Hears, One, Among};

use std::alloc::{AllocError, Global};

/// A step: its thread, and how many steps that thread has then taken, it included. No step where that is 0.
#[derive(Clone, Copy)]
pub struct Stamp {
    pub thread: u32,
    pub number: u32,
}

/// The number at an index, 0 past the end.
pub fn number_at(numbers: &[u32], k: usize) -> u32
    ensures { result ≡ slice_index numbers.now k }
{
    match numbers.get(k) {
        Some(n) => *n,
        None => 0,
    }
}

/// Whether a thread with this clock has heard of a step.
pub fn is_heard(clock: &[u32], stamp: Stamp) -> bool
    ensures { result ≡ is_heard (slice_index clock.now) stamp }
{
    stamp.number <= number_at(clock, stamp.thread as usize)
}

/// Whether a thread with this clock has heard of so many steps of each thread.
pub fn are_heard(clock: &[u32], numbers: &[u32]) -> bool
    ensures all { result ≡ true → (k : ℕ) → slice_index numbers.now k ≤ slice_index clock.now k }
    ensures missed { result ≡ false → (k : ℕ) × (slice_index clock.now k < slice_index numbers.now k) }
{
    for k in 0..numbers.len() {
        if numbers[k] > number_at(clock, k) {
            return false;
        }
    }
    true
}

/// The clock of a thread.
pub fn clock_of(clocks: &[Vec<u32>], thread: u32) -> &[u32]
    ensures { result.now ≡ row clocks.now thread }
{
    match clocks.get(thread as usize) {
        Some(clock) => clock.as_slice(),
        None => &[],
    }
}

/// Whether a thread that has heard of so many steps of each thread has heard of all.
pub fn is_behind_all(clocks: &[Vec<u32>], heard: &[u32]) -> bool
    ensures all { result ≡ true → (k : ℕ) → clock clocks.now k k ≤ slice_index heard.now k }
    ensures missed { result ≡ false → (k : ℕ) × (slice_index heard.now k < clock clocks.now k k) }
{
    for k in 0..clocks.len() {
        if number_at(&clocks[k], k) > number_at(heard, k) {
            return false;
        }
    }
    true
}

/// A clock hears what another one has heard; whether there is a place for it.
fn raise(clock: &mut Vec<u32>, other: &[u32]) -> bool
    ensures { result ≡ true → IsRaised clock.old.items clock.new.items other.now }
{
    if other.len() > clock.len() {
        return false;
    }
    for k in 0..clock.len() {
        clock[k] = clock[k].max(number_at(other, k));
    }
    true
}

/// A thread hears what another one has heard; whether there is a place for it.
pub fn hear(clocks: &mut Vec<Vec<u32>>, to: usize, from: usize) -> Result<bool, AllocError>
    ensures { IfOk result (λ heard. heard ≡ true → Hears (One from to) (clock clocks.old.items) (clock clocks.new.items)) }
{
    if to >= clocks.len() || from >= clocks.len() {
        return Ok(false);
    }
    let other = clocks[from].clone()?;
    Ok(raise(&mut clocks[to], &other))
}

/// Each of these threads hears what any of them has heard; whether there is a place for it.
pub fn share(clocks: &mut Vec<Vec<u32>>, threads: &[u32]) -> Result<bool, AllocError>
    ensures { IfOk result (λ shared. shared ≡ true → Hears (Among threads.now) (clock clocks.old.items) (clock clocks.new.items)) }
{
    if threads.is_empty() {
        return Ok(true);
    }
    let first = threads[0] as usize;
    for thread in threads {
        if !hear(clocks, first, *thread as usize)? {
            return Ok(false);
        }
    }
    for thread in threads {
        if !hear(clocks, *thread as usize, first)? {
            return Ok(false);
        }
    }
    Ok(true)
}

fn tick_own(clock: &mut Vec<u32>, k: usize) -> Option<u32>
    ensures { MatchOption result ⊤ (λ n. IsTickedRow clock.old.items clock.new.items k n) }
{
    if k >= clock.len() {
        return None;
    }
    let n = clock[k].checked_add(1)?;
    clock[k] = n;
    Some(n)
}

/// A thread takes a step; answers the number of that step. None where there is no such thread.
pub fn tick(clocks: &mut Vec<Vec<u32>>, thread: u32) -> Option<u32>
    ensures { MatchOption result ⊤ (λ n. Ticks clocks.old.items clocks.new.items thread n) }
{
    let k = thread as usize;
    if k >= clocks.len() {
        return None;
    }
    tick_own(&mut clocks[k], k)
}

/// So many zeros.
pub fn zeros(alloc: Global, n: usize) -> Result<Vec<u32>, AllocError>
    ensures { IfOk result (λ v. v.items ≡ replicate n 0) }
{
    vec![in alloc; 0u32; n]
}

/// The clocks of so many threads, of which none has taken a step.
pub fn first_clocks(alloc: Global, threads: usize) -> Result<Vec<Vec<u32>>, AllocError>
    ensures { IfOk result (λ clocks. (j k : ℕ) → clock clocks.items j k ≡ 0) }
{
    let mut clocks = Vec::new(alloc);
    for _ in 0..threads {
        let clock = zeros(alloc, threads)?;
        clocks.push(clock)?;
    }
    Ok(clocks)
}
