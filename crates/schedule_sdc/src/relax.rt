// The least starts, where a few rounds over the constraints reach them: nothing is kept but the starts.
ghost use Rattle.std.specs.Prelude.{◌≡◌, ◌+◌, ◌^◌, ◌<◌, ◌≤◌, pos, ◌+ℤ◌, ◌≤ℤ◌, length, IfOk, IfSome, MatchOption};
ghost use Rattle.std.specs.List.{All};
ghost use Rattle.schedule_sdc.specs.Solution.{IsWithin, IsLeast};
ghost use Rattle.schedule_sdc.specs.Relaxed.{IsLift, IsRoundOf, AreEarly};

use crate::constraint::Constraint;
use std::alloc::{AllocError, Global};

/// What a constraint, or a round over all of them, did to the starts.
#[derive(Clone, Copy)]
pub enum Lift {
    /// It was met.
    Kept,
    /// A start was raised.
    Raised,
    /// A start does not fit 64 bits. It was left as it was.
    Far,
}

/// The start that `from` and the gap give, where it is later than `to`.
pub fn later_start(from: u128, gap: i64, to: u128) -> Option<u128>
    requires { from < 2 ^ 127 }
    ensures later { MatchOption result ((pos from +ℤ gap) ≤ℤ pos to) (λ start. (to < start) × (pos from +ℤ gap ≡ pos start)) }
    ensures near { IfSome result (λ start. start ≤ from + 2 ^ 63) }
{
    let size = u128::from(gap.unsigned_abs());
    let start = if gap < 0 {
        from.saturating_sub(size)
    } else {
        from + size
    };
    if start <= to { None } else { Some(start) }
}

/// The least starts, where few rounds reach them: one, one more for each constraint that does not lead to
/// a higher place, and one that finds all of them met. If the constraints are listed by the places that they
/// lead from, and have a solution, that is enough.
pub fn settle(
    alloc: Global,
    places: usize,
    list: &[Constraint],
) -> Result<Option<Vec<u64>>, AllocError>
    requires { All (IsWithin places) list.now }
    ensures { IfOk result (λ found. IfSome found (λ starts. IsLeast places list.now starts.items)) }
{
    let mut starts: Vec<u64> = vec![in alloc; 0; places]?;
    let backward = list.iter().filter(|c| c.to <= c.from).count();
    for _round in 0..places.min(backward.saturating_add(2)) {
        match one_round(&mut starts, list) {
            Lift::Kept => return Ok(Some(starts)),
            Lift::Raised => {}
            Lift::Far => return Ok(None),
        }
    }
    Ok(None)
}

// Raises starts by each constraint in turn.
fn one_round(starts: &mut Vec<u64>, list: &[Constraint]) -> Lift
    requires places { All (IsWithin (length starts.old.items)) list.now }
    requires early { AreEarly list.now (length starts.old.items) starts.old.items }
    ensures count { length starts.new.items ≡ length starts.old.items }
    ensures early { AreEarly list.now (length starts.old.items) starts.new.items }
    ensures round { IsRoundOf list.now starts.new.items result }
{
    let mut raised = false;
    for c in list {
        match lift_place(starts, c) {
            Lift::Kept => {}
            Lift::Raised => raised = true,
            Lift::Far => return Lift::Far,
        }
    }
    if raised { Lift::Raised } else { Lift::Kept }
}

// Raises the start of a constraint's place to what the constraint wants.
fn lift_place(starts: &mut Vec<u64>, c: &Constraint) -> Lift
    requires { IsWithin (length starts.old.items) c.now }
    ensures { IsLift c.now starts.old.items starts.new.items result }
{
    let Some(start) = later_start(starts[c.from].into(), c.gap, starts[c.to].into()) else {
        return Lift::Kept;
    };
    if start > u128::from(u64::MAX) {
        return Lift::Far;
    }
    starts[c.to] = start as u64;
    Lift::Raised
}
