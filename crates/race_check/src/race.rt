// The first race in a state.
ghost use Rattle.std.specs.Prelude.{◌≡◌, ◌<◌, ℕ, length, IfOk};
ghost use Rattle.c_program.specs.Plain.{program_of};
ghost use Rattle.c_state.specs.View.{state_of};
ghost use Rattle.race_check.specs.Access.{touches_of};
ghost use Rattle.race_check.specs.First.{IsFirstRace, row, AreFootprints, FirstWith, FirstOf};

use crate::access::{Access, Location};
use crate::conflict::least_conflict;
use crate::footprint::footprint;
use c_program::tree::Program;
use c_state::state::State;
use sqlite_items::Items;
use std::alloc::{AllocError, Global};

/// Two threads whose next steps touch a location that one of them writes.
#[derive(Clone, Copy)]
pub struct Race {
    pub first: usize,
    pub second: usize,
    pub location: Location,
}

/// What the next step of each thread touches.
fn footprints<'p>(
    alloc: Global,
    program: &'p Program,
    state: &State<'p>,
) -> Result<Items<Items<Access>>, AllocError>
    ensures { IfOk result (λ all. AreFootprints (program_of program.now) (state_of state.now) (row all)) }
{
    let mut all = Items::new(alloc);
    for thread in 0..state.slots.len() {
        let list = footprint(alloc, program, state, thread)?;
        all.push(list)?;
    }
    Ok(all)
}

/// The footprint of a thread: nothing where there is none.
fn accesses(footprints: &[Items<Access>], thread: usize) -> &[Access]
    ensures { touches_of result.now ≡ row footprints.now thread }
{
    match footprints.get(thread) {
        Some(list) => list.as_slice(),
        None => &[],
    }
}

/// The race of a thread with the first one behind it, at the least location.
fn race_with(footprints: &[Items<Access>], first: usize) -> Option<Race>
    requires { first < length footprints.now }
    ensures { FirstWith (row footprints.now) first result }
{
    for second in first + 1..footprints.len() {
        if let Some(location) = least_conflict(
            accesses(footprints, first),
            accesses(footprints, second),
        ) {
            return Some(Race {
                first,
                second,
                location,
            });
        }
    }
    None
}

/// The first race among these footprints.
fn first_race(footprints: &[Items<Access>]) -> Option<Race>
    ensures { FirstOf (row footprints.now) result }
{
    for first in 0..footprints.len() {
        if let Some(race) = race_with(footprints, first) {
            return Some(race);
        }
    }
    None
}

/// The first race in a state, or none where no two threads race. Of several the one with the least first thread, then with
/// the least second thread, then at the least location. A thread that is blocked, or whose step is undefined, races with
/// none.
pub fn races<'p>(
    alloc: Global,
    program: &'p Program,
    state: &State<'p>,
) -> Result<Option<Race>, AllocError>
    ensures { IfOk result (λ race. IsFirstRace (program_of program.now) (state_of state.now) race) }
{
    let all = footprints(alloc, program, state)?;
    Ok(first_race(all.as_slice()))
}
