// The intervals that have a place, and their rows.
ghost use Rattle.std.specs.Prelude.{◌≡◌, [], ◌∷◌, ◌++◌, length, nat_lt, OnOk, if◌then◌else◌};
ghost use Rattle.interval_pack.specs.Chosen.{IsRisingBelow, IsSpread};

use crate::Interval;
use std::alloc::AllocError;

/// Takes the interval and its index up, if it has a place.
pub fn choose(
    chosen: &mut Vec<usize>,
    solid: &mut Vec<Interval>,
    i: usize,
    interval: Interval,
) -> Result<(), AllocError>
    ensures chosen { OnOk result (chosen.new.items ≡ (if nat_lt interval.start interval.end then chosen.old.items ++ i ∷ [] else chosen.old.items)) }
    ensures solid { OnOk result (solid.new.items ≡ (if nat_lt interval.start interval.end then solid.old.items ++ interval ∷ [] else solid.old.items)) }
{
    if interval.start >= interval.end {
        return Ok(());
    }
    chosen.push(i)?;
    solid.push(interval)?;
    Ok(())
}

/// Gives each chosen place its row.
pub fn spread(rows: &mut Vec<usize>, chosen: &[usize], row: &[usize])
    requires chosen { IsRisingBelow (length rows.old.items) chosen.now }
    requires row { length row.now ≡ length chosen.now }
    ensures { IsSpread (length chosen.now) chosen.now row.now rows.old.items rows.new.items }
{
    for a in 0..chosen.len() {
        rows[chosen[a]] = row[a];
    }
}
