// The last accesses to each element of each global.
ghost use Rattle.std.specs.Prelude.{◌≡◌, ℕ, true, false, Some, None, slice_index, Contains, IfOk, MatchOption};
ghost use Rattle.thread_semantics.specs.Memory.{Location as Places};
ghost use Rattle.thread_semantics.specs.Races.{Touch};
ghost use Rattle.race_check.specs.Access.{location_of, touch_of, touches_of};
ghost use Rattle.run_check.specs.Clocks.{is_heard};
ghost use Rattle.run_check.specs.Objects.{element_at, write_at, read_at, IsFirstRow};
ghost use Rattle.run_check.specs.Shadow.{IsOrdered, IsUnordered, AreOrdered, IsMarked};
ghost use Rattle.run_check.specs.Marks.{IsElementMarked, IsRowMarked, IsOneMarked};

use crate::clocks::{Stamp, are_heard, is_heard, number_at, zeros};
use race_check::access::{Access, Location};
use std::alloc::{AllocError, Global};

/// The last accesses to an element: the write, and how many steps each thread had taken with its read.
#[derive(Drop)]
pub struct Element {
    pub write: Stamp,
    pub reads: Vec<u32>,
}

fn element_at(elements: &[Vec<Element>], location: Location) -> Option<&Element>
    ensures { MatchOption result (element_at elements.now (location_of location) ≡ None) (λ e. element_at elements.now (location_of location) ≡ Some e.now) }
{
    match elements.get(location.global as usize) {
        None => None,
        Some(row) => row.get(location.index as usize),
    }
}

/// Whether a thread with this clock has heard of each access that conflicts with this one.
fn is_ordered(elements: &[Vec<Element>], access: &Access, clock: &[u32]) -> bool
    ensures ordered { result ≡ true → IsOrdered (write_at elements.now) (read_at elements.now) (slice_index clock.now) (touch_of access.now) }
    ensures unordered { result ≡ false → IsUnordered (write_at elements.now) (read_at elements.now) (slice_index clock.now) (touch_of access.now) }
{
    match element_at(elements, access.location) {
        None => true,
        Some(element) => {
            is_heard(clock, element.write) && (!access.written || are_heard(clock, &element.reads))
        }
    }
}

/// Whether a thread with this clock has heard of each access that conflicts with one of these.
pub fn are_ordered(elements: &[Vec<Element>], accesses: &[Access], clock: &[u32]) -> bool
    ensures ordered { result ≡ true → AreOrdered (write_at elements.now) (read_at elements.now) (slice_index clock.now) (touches_of accesses.now) }
    ensures unordered { result ≡ false → (t : Touch) × Contains (touches_of accesses.now) t × IsUnordered (write_at elements.now) (read_at elements.now) (slice_index clock.now) t }
{
    match accesses.split_first() {
        None => true,
        Some((access, rest)) => {
            is_ordered(elements, access, clock) && are_ordered(elements, rest, clock)
        }
    }
}

/// Keeps an access to an element; whether there is a place for it.
fn mark_element(element: &mut Element, written: bool, step: Stamp) -> bool
    ensures { result ≡ true → IsElementMarked element.old element.new written step }
{
    if written {
        element.write = step;
        return true;
    }
    let thread = step.thread as usize;
    if thread >= element.reads.len() {
        return false;
    }
    element.reads[thread] = step.number;
    true
}

fn mark_row(row: &mut Vec<Element>, index: usize, written: bool, step: Stamp) -> bool
    ensures { result ≡ true → IsRowMarked row.old.items row.new.items index written step }
{
    if index < row.len() {
        mark_element(&mut row[index], written, step)
    } else {
        false
    }
}

/// Keeps an access; whether there is a place for it.
fn mark(elements: &mut Vec<Vec<Element>>, access: &Access, step: Stamp) -> bool
    ensures { result ≡ true → IsOneMarked elements.old.items elements.new.items (touch_of access.now) step }
{
    let global = access.location.global as usize;
    if global < elements.len() {
        mark_row(
            &mut elements[global],
            access.location.index as usize,
            access.written,
            step,
        )
    } else {
        false
    }
}

/// Keeps these accesses of a step; whether there is a place for each.
#[tactic(auto, using(crate::proofs::LastAccesses::marks_more, crate::proofs::LastAccesses::marks_none))]
pub fn mark_all(elements: &mut Vec<Vec<Element>>, accesses: &[Access], step: Stamp) -> bool
    ensures { result ≡ true → IsMarked (write_at elements.old.items) (write_at elements.new.items) (read_at elements.old.items) (read_at elements.new.items) step (touches_of accesses.now) }
{
    match accesses.split_first() {
        None => true,
        Some((access, rest)) => mark(elements, access, step) && mark_all(elements, rest, step),
    }
}

fn first_row(alloc: Global, length: usize, threads: usize) -> Result<Vec<Element>, AllocError>
    ensures { IfOk result (λ row. IsFirstRow row.items) }
{
    let mut row = Vec::new(alloc);
    for _ in 0..length {
        let reads = zeros(alloc, threads)?;
        row.push(Element {
            write: Stamp {
                thread: 0,
                number: 0,
            },
            reads,
        })?;
    }
    Ok(row)
}

/// The elements of these globals, to which none of so many threads has made an access.
pub fn first_elements(
    alloc: Global,
    globals: &[Vec<i128>],
    threads: usize,
) -> Result<Vec<Vec<Element>>, AllocError>
    ensures write { IfOk result (λ rows. (p : Places) → (write_at rows.items p).number ≡ 0) }
    ensures read { IfOk result (λ rows. (p : Places) (k : ℕ) → read_at rows.items p k ≡ 0) }
{
    let mut rows = Vec::new(alloc);
    for global in globals {
        let row = first_row(alloc, global.len(), threads)?;
        rows.push(row)?;
    }
    Ok(rows)
}

/// The first read of which a thread with this clock hasn't heard; number 0 where there is none.
fn unheard_read(clock: &[u32], reads: &[u32]) -> Stamp {
    for k in 0..reads.len() {
        if reads[k] > number_at(clock, k) {
            return match u32::try_from(k) {
                Ok(thread) => Stamp {
                    thread,
                    number: reads[k],
                },
                Err(_) => Stamp {
                    thread: 0,
                    number: 0,
                },
            };
        }
    }
    Stamp {
        thread: 0,
        number: 0,
    }
}

/// An access of which a thread with this clock hasn't heard and that conflicts with this one; number 0 where there is none.
pub fn unordered_access(elements: &[Vec<Element>], access: &Access, clock: &[u32]) -> Stamp {
    match element_at(elements, access.location) {
        None => Stamp {
            thread: 0,
            number: 0,
        },
        Some(element) => {
            if !is_heard(clock, element.write) {
                element.write
            } else if access.written {
                unheard_read(clock, &element.reads)
            } else {
                Stamp {
                    thread: 0,
                    number: 0,
                }
            }
        }
    }
}
