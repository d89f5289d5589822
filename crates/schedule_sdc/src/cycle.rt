// A closed walk from the history of a step.
ghost use Rattle.std.specs.Prelude.{ℕ, ◌<◌, length, IfOk, List};
ghost use Rattle.schedule_sdc.specs.Solution.{IsPositiveCycle};
ghost use Rattle.schedule_sdc.specs.declared.constraint.Constraint.{Constraint};
ghost use Rattle.schedule_sdc.specs.History.{IsReturn, IsHistory, IsMeeting, IsCycleBehind};

use crate::history::Step;
use std::alloc::{AllocError, Global};

/// Two steps of one place, the earlier behind the later.
#[derive(Clone, Copy)]
pub struct Return {
    pub later: usize,
    pub earlier: usize,
}

/// The closed walk behind the last step, if some place comes twice there.
pub fn positive_cycle(
    alloc: Global,
    places: usize,
    steps: &[Step],
) -> Result<Option<Vec<usize>>, AllocError>
    requires { (list : List Constraint) × IsHistory list places steps.now }
    ensures { IfOk result (IsCycleBehind places steps.now) }
{
    let Some(top) = steps.len().checked_sub(1) else {
        return Ok(None);
    };
    match place_met_twice(alloc, places, steps, top)? {
        Some(ends) => Ok(Some(places_between(alloc, steps, ends)?)),
        None => Ok(None),
    }
}

// Finds a place that comes twice on the way back from the step `top`.
fn place_met_twice(
    alloc: Global,
    places: usize,
    steps: &[Step],
    top: usize,
) -> Result<Option<Return>, AllocError>
    requires history { (list : List Constraint) × IsHistory list places steps.now }
    requires within { top < length steps.now }
    ensures { IfOk result (IsMeeting places steps.now top) }
{
    let mut seen: Vec<Option<usize>> = vec![in alloc; None; places]?;
    let mut here = top;
    loop {
        let step = steps[here];
        if let Some(later) = seen[step.place] {
            return Ok(Some(Return {
                later,
                earlier: here,
            }));
        }
        if step.depth == 0 {
            return Ok(None);
        }
        seen[step.place] = Some(here);
        here = step.before;
    }
}

// The places from the earlier step to the later one.
fn places_between(alloc: Global, steps: &[Step], ends: Return) -> Result<Vec<usize>, AllocError>
    requires history { (list : List Constraint) × (n : ℕ) × IsHistory list n steps.now }
    requires ends { IsReturn steps.now ends.later ends.earlier }
    ensures { IfOk result (λ walk. (list : List Constraint) (n : ℕ) → IsHistory list n steps.now → IsPositiveCycle list walk.items) }
{
    let mut walk = Vec::new(alloc);
    let mut here = ends.later;
    walk.push(steps[here].place)?;
    while here != ends.earlier {
        here = steps[here].before;
        walk.push(steps[here].place)?;
    }
    walk.reverse();
    Ok(walk)
}
