// What is kept of the steps of a run.
ghost use Rattle.std.specs.Prelude.{◌≡◌, ◌⊎◌, ◌≤◌, ℕ, true, false, slice_index, IfOk};
ghost use Rattle.race_check.specs.Access.{touches_of};
ghost use Rattle.run_check.specs.Clocks.{clock, is_heard, Hears};
ghost use Rattle.run_check.specs.Class.{is_print, Tells};
ghost use Rattle.run_check.specs.Objects.{write_at, read_at};
ghost use Rattle.run_check.specs.Shadow.{AreOrdered, Misses};
ghost use Rattle.run_check.specs.Known.{shadow_of, IsActOrdered, IsActMissed, IsActPut, IsFirst, IsNote};

use crate::class::Class;
use crate::clocks::{
    Stamp, clock_of, first_clocks, hear, is_behind_all, is_heard, number_at, share, tick,
};
use crate::elements::{Element, are_ordered, first_elements, mark_all, unordered_access};
use crate::objects::{first_acts, last_act, put_act};
use c_state::state::State;
use race_check::access::Access;
use std::alloc::{AllocError, Global};

/// What is kept of the steps of a run: who has heard of how many steps, the last accesses to each element of each global,
/// the last act on each mutex, barrier and thread id, the last print, and whether each print so far happens behind the one
/// before it.
#[derive(Drop)]
pub struct Known {
    pub clocks: Vec<Vec<u32>>,
    pub elements: Vec<Vec<Element>>,
    pub mutexes: Vec<Stamp>,
    pub barriers: Vec<Stamp>,
    pub ids: Vec<Stamp>,
    pub print: Stamp,
    pub one_output: bool,
}

/// What became of a step that was to be noted.
#[derive(Clone, Copy)]
pub enum Note {
    /// It happens behind all steps on which it depends, and is kept.
    Kept,
    /// A step on which it depends doesn't happen before it.
    Unordered,
    /// There is no place for it.
    NoRoom,
}

/// Threads tell others what they have heard, by such a step of a thread; whether there is a place for it.
fn tell(
    clocks: &mut Vec<Vec<u32>>,
    thread: u32,
    class: Class,
    released: &[u32],
) -> Result<bool, AllocError>
    ensures { IfOk result (λ told. told ≡ true → Hears (Tells class released.now thread) (clock clocks.old.items) (clock clocks.new.items)) }
{
    match class {
        Class::Creates(n) => {
            if n >= clocks.len() as u128 {
                return Ok(false);
            }
            hear(clocks, n as usize, thread as usize)
        }
        Class::Joins(n) => {
            if n >= clocks.len() as u128 {
                return Ok(false);
            }
            hear(clocks, thread as usize, n as usize)
        }
        Class::Waits(_) => share(clocks, released),
        Class::Plain => Ok(true),
        Class::Prints => Ok(true),
        Class::UsesMutex(_) => Ok(true),
        Class::SetsBarrier(_) => Ok(true),
    }
}

impl Known {
    /// What is kept before the first step.
    pub fn new(alloc: Global, state: &State) -> Result<Self, AllocError>
        ensures { IfOk result IsFirst }
    {
        let threads = state.slots.len();
        Ok(Known {
            clocks: first_clocks(alloc, threads)?,
            elements: first_elements(alloc, &state.globals, threads)?,
            mutexes: first_acts(alloc, state.mutexes.len())?,
            barriers: first_acts(alloc, state.barriers.len())?,
            ids: first_acts(alloc, threads)?,
            print: Stamp {
                thread: 0,
                number: 0,
            },
            one_output: true,
        })
    }

    /// Whether a thread with this clock has heard of the last act on the object of such a step.
    fn is_act_ordered(&self, class: Class, clock: &[u32]) -> bool
        ensures ordered { result ≡ true → IsActOrdered self.now (slice_index clock.now) class }
        ensures unordered { result ≡ false → IsActMissed self.now (slice_index clock.now) class }
    {
        match class {
            Class::Plain | Class::Prints => true,
            Class::Creates(n) | Class::Joins(n) => is_heard(clock, last_act(&self.ids, n)),
            Class::UsesMutex(n) => is_heard(clock, last_act(&self.mutexes, n)),
            Class::SetsBarrier(n) | Class::Waits(n) => is_heard(clock, last_act(&self.barriers, n)),
        }
    }

    /// Whether each print happens behind the one before it, once a thread takes such a step.
    fn has_one_output(&self, thread: u32, class: Class) -> bool
        ensures kept { result ≡ true → (self.now.one_output ≡ true) × (is_print class ≡ true → is_heard (clock self.now.clocks.items thread) self.now.print ≡ true) }
        ensures lost { result ≡ false → (self.now.one_output ≡ false) ⊎ ((is_print class ≡ true) × (is_heard (clock self.now.clocks.items thread) self.now.print ≡ false)) }
    {
        self.one_output
            && match class {
                Class::Prints => is_heard(clock_of(&self.clocks, thread), self.print),
                _ => true,
            }
    }

    /// Keeps an act; whether there is a place for it. A wait that lets nobody go is kept by the barrier itself.
    fn put(&mut self, class: Class, released: &[u32], step: Stamp) -> bool
        ensures { result ≡ true → IsActPut self.old self.new step class released.now }
    {
        match class {
            Class::Plain => true,
            Class::Prints => {
                self.print = step;
                true
            }
            Class::Creates(n) | Class::Joins(n) => put_act(&mut self.ids, n, step),
            Class::UsesMutex(n) => put_act(&mut self.mutexes, n, step),
            Class::SetsBarrier(n) => put_act(&mut self.barriers, n, step),
            Class::Waits(n) => released.is_empty() || put_act(&mut self.barriers, n, step),
        }
    }

    /// Whether the next step of a thread happens behind all steps on which it depends.
    fn is_ordered(&self, thread: u32, class: Class, accesses: &[Access], ended: bool) -> bool
        ensures accesses { result ≡ true → AreOrdered (write_at self.now.elements.items) (read_at self.now.elements.items)
            (clock self.now.clocks.items thread) (touches_of accesses.now) }
        ensures act { result ≡ true → IsActOrdered self.now (clock self.now.clocks.items thread) class }
        ensures last { result ≡ true → ended ≡ true → (k : ℕ) → clock self.now.clocks.items k k ≤ clock self.now.clocks.items thread k }
        ensures unordered { result ≡ false → Misses (shadow_of self.now) (clock self.now.clocks.items thread) class (touches_of accesses.now) ended }
    {
        let clock = clock_of(&self.clocks, thread);
        if !are_ordered(&self.elements, accesses, clock) {
            return false;
        }
        if !self.is_act_ordered(class, clock) {
            return false;
        }
        !ended || is_behind_all(&self.clocks, clock)
    }

    /// Keeps a step of a thread, where it happens behind all steps on which it depends.
    pub fn note(
        &mut self,
        thread: u32,
        class: Class,
        accesses: &[Access],
        released: &[u32],
        ended: bool,
    ) -> Result<Note, AllocError>
        ensures { IfOk result (IsNote self.old self.new thread class (touches_of accesses.now) released.now ended) }
    {
        if !self.is_ordered(thread, class, accesses, ended) {
            return Ok(Note::Unordered);
        }
        self.one_output = self.has_one_output(thread, class);
        let Some(number) = tick(&mut self.clocks, thread) else {
            return Ok(Note::NoRoom);
        };
        let step = Stamp { thread, number };
        if !mark_all(&mut self.elements, accesses, step) {
            return Ok(Note::NoRoom);
        }
        if !self.put(class, released, step) {
            return Ok(Note::NoRoom);
        }
        if !tell(&mut self.clocks, thread, class, released)? {
            return Ok(Note::NoRoom);
        }
        Ok(Note::Kept)
    }

    /// Whether this is the next step of its thread.
    pub fn is_next(&self, step: Stamp) -> bool {
        number_at(clock_of(&self.clocks, step.thread), step.thread as usize).checked_add(1)
            == Some(step.number)
    }

    /// An access of which a thread hasn't heard and that conflicts with one of these; number 0 where there is none.
    pub fn unordered(&self, thread: u32, accesses: &[Access]) -> Stamp {
        let clock = clock_of(&self.clocks, thread);
        for access in accesses {
            let other = unordered_access(&self.elements, access, clock);
            if other.number > 0 {
                return other;
            }
        }
        Stamp {
            thread: 0,
            number: 0,
        }
    }
}
