// The starts so far, with the history of each.
ghost use Rattle.std.specs.Prelude.{length, IfOk};
ghost use Rattle.std.specs.List.{All, Contains};
ghost use Rattle.schedule_sdc.specs.Solution.{IsWithin};
ghost use Rattle.schedule_sdc.specs.History.{IsSound, IsShallow, IsChange};

use crate::constraint::Constraint;
use crate::relax::later_start;
use std::alloc::AllocError;

/// A start that a place had at some time, and the step from which a constraint gave it.
#[derive(Clone, Copy)]
pub struct Step {
    pub place: usize,
    /// The index of the step before it; its own, where none is.
    pub before: usize,
    /// How many steps lie behind it.
    pub depth: usize,
    /// Wide enough for as many gaps as there can be places.
    pub start: u128,
}

/// What a constraint did to the start of its place.
#[derive(Clone, Copy)]
pub enum Change {
    /// It was met.
    Kept,
    /// The start was raised.
    Raised,
    /// The start was raised, and as many steps lie behind it as there are places.
    Deep,
}

/// Raises the start of a constraint's place to what the constraint wants.
pub fn raise(
    starts: &mut Vec<u128>,
    last: &mut Vec<usize>,
    steps: &mut Vec<Step>,
    list: &[Constraint],
    c: &Constraint,
) -> Result<Change, AllocError>
    requires sound { IsSound list.now (length starts.old.items) starts.old.items last.old.items steps.old.items }
    requires shallow { IsShallow (length starts.old.items) steps.old.items }
    requires listed { Contains list.now c.now }
    requires places { All (IsWithin (length starts.old.items)) list.now }
    ensures sound { IfOk result (λ _. IsSound list.now (length starts.old.items) starts.new.items last.new.items steps.new.items) }
    ensures change { IfOk result (IsChange c.now (length starts.old.items) starts.old.items starts.new.items steps.new.items) }
{
    let places = starts.len();
    let before = last[c.from];
    let from = steps[before];
    let Some(start) = later_start(from.start, c.gap, starts[c.to]) else {
        return Ok(Change::Kept);
    };
    let top = steps.len();
    steps.push(Step {
        place: c.to,
        before,
        depth: from.depth + 1,
        start,
    })?;
    last[c.to] = top;
    starts[c.to] = start;
    if from.depth + 1 == places {
        Ok(Change::Deep)
    } else {
        Ok(Change::Raised)
    }
}
