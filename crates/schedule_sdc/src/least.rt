// The least starts, by raising them until every constraint is met.
ghost use Rattle.std.specs.Prelude.{◌≡◌, ◌^◌, ◌<◌, IfOk, MatchOption};
ghost use Rattle.std.specs.List.{All};
ghost use Rattle.schedule_sdc.specs.Solution.{IsWithin, IsAnswer, IsLeast, IsPositiveCycle, FitsIfSolvable};
ghost use Rattle.schedule_sdc.specs.History.{IsSound, IsShallow};
ghost use Rattle.schedule_sdc.specs.Relaxed.{AreEarly};

use crate::constraint::{Constraint, Solved};
use crate::cycle::positive_cycle;
use crate::history::{Change, Step, raise};
use crate::relax::settle;
use std::alloc::{AllocError, Global};

/// The least starts from 0 that meet every constraint, or a closed walk whose gaps have a positive sum.
/// The only error is want of memory. Where each constraint leads to a higher place, two rounds over the
/// constraints are enough, in whatever order they are listed.
pub fn solve(alloc: Global, places: usize, list: &[Constraint]) -> Result<Solved, AllocError>
    requires places { All (IsWithin places) list.now }
    requires fits { FitsIfSolvable places list.now }
    ensures { IfOk result (IsAnswer places list.now) }
{
    let mut ordered = Vec::from_slice(alloc, list)?;
    ordered.sort_by_key(|c| c.from)?;
    match settle(alloc, places, &ordered)? {
        Some(starts) => Ok(Solved::Starts(starts)),
        None => solve_with_history(alloc, places, &ordered),
    }
}

// The same, with the history from which a closed walk is read.
fn solve_with_history(
    alloc: Global,
    places: usize,
    list: &[Constraint],
) -> Result<Solved, AllocError>
    requires places { All (IsWithin places) list.now }
    requires fits { FitsIfSolvable places list.now }
    ensures { IfOk result (IsAnswer places list.now) }
{
    let mut last = Vec::new(alloc);
    let mut steps = Vec::new(alloc);
    for place in 0..places {
        last.push(place)?;
        steps.push(Step {
            place,
            before: place,
            depth: 0,
            start: 0,
        })?;
    }
    let mut starts: Vec<u128> = vec![in alloc; 0; places]?;
    match cycle_met(alloc, places, list, &mut starts, &mut last, &mut steps)? {
        Some(walk) => Ok(Solved::Cyclic(walk)),
        None => Ok(Solved::Starts(narrowed(alloc, &starts)?)),
    }
}

// Raises the starts in rounds until every constraint is met, or a closed walk is.
fn cycle_met(
    alloc: Global,
    places: usize,
    list: &[Constraint],
    starts: &mut Vec<u128>,
    last: &mut Vec<usize>,
    steps: &mut Vec<Step>,
) -> Result<Option<Vec<usize>>, AllocError>
    requires places { All (IsWithin places) list.now }
    requires sound { IsSound list.now places starts.old.items last.old.items steps.old.items }
    requires shallow { IsShallow places steps.old.items }
    requires early { AreEarly list.now places starts.old.items }
    ensures { IfOk result (λ met. MatchOption met (IsLeast places list.now starts.new.items) (λ walk. IsPositiveCycle list.now walk.items)) }
{
    'rounds: loop {
        let mut raised = false;
        for c in list {
            match raise(starts, last, steps, list, c)? {
                Change::Kept => {}
                Change::Raised => raised = true,
                Change::Deep => {
                    let Some(walk) = positive_cycle(alloc, places, steps.as_slice())? else {
                        unreachable!();
                    };
                    return Ok(Some(walk));
                }
            }
        }
        if !raised {
            return Ok(None);
        }
        if let Some(walk) = positive_cycle(alloc, places, steps.as_slice())? {
            return Ok(Some(walk));
        }
    }
}

// The same starts in 64 bits.
fn narrowed(alloc: Global, starts: &[u128]) -> Result<Vec<u64>, AllocError>
    requires { All (λ start. start < 2 ^ 64) starts.now }
    ensures { IfOk result (λ narrow. narrow.items ≡ starts.now) }
{
    let mut narrow = Vec::with_capacity(alloc, starts.len())?;
    for start in starts {
        narrow.push(*start as u64)?;
    }
    Ok(narrow)
}
