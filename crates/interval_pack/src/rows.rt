// The rows of a packing while its intervals are placed.
ghost use Rattle.std.specs.Prelude.{◌≡◌, ◌+◌, ◌^◌, ◌<◌, [], IfOk, OnOk};
ghost use Rattle.interval_pack.specs.FreeRows.{IsVacated, IsPopped, IsReuse, IsOpening};

use crate::interval::Interval;
use std::alloc::{AllocError, Global};
use std::collections::BTreeSet;

/// The rows so far, as they are at some place.
#[derive(Drop)]
pub struct Rows {
    /// Those that are free there.
    pub free: BTreeSet<usize>,
    /// The others, each behind the end of its last interval.
    pub busy: BTreeSet<(u64, usize)>,
    /// How many there are.
    pub count: usize,
}

/// No rows.
pub fn no_rows(alloc: Global) -> Rows
    ensures free { result.free.keys ≡ [] }
    ensures busy { result.busy.keys ≡ [] }
    ensures count { result.count ≡ 0 }
{
    Rows {
        free: BTreeSet::new(alloc),
        busy: BTreeSet::new(alloc),
        count: 0,
    }
}

/// Frees the rows whose last interval has ended at `place`.
pub fn free_ended(rows: &mut Rows, place: u64) -> Result<(), AllocError>
    ensures vacated { OnOk result (IsVacated place rows.old rows.new) }
    ensures count { rows.new.count ≡ rows.old.count }
{
    while let Some((_, row)) = pop_ended(&mut rows.busy, place) {
        rows.free.insert(row)?;
    }
    Ok(())
}

// Takes out the first busy row, if its last interval has ended at `place`.
fn pop_ended(busy: &mut BTreeSet<(u64, usize)>, place: u64) -> Option<(u64, usize)>
    ensures { IsPopped place busy.old.keys busy.new.keys result }
{
    match busy.first() {
        Some((end, _)) if *end <= place => busy.pop_first(),
        _ => None,
    }
}

/// Gives the interval the least free row, if there is one.
pub fn reuse_row(rows: &mut Rows, interval: Interval) -> Result<Option<usize>, AllocError>
    ensures reuse { IfOk result (IsReuse interval rows.old rows.new) }
    ensures count { rows.new.count ≡ rows.old.count }
{
    let Some(row) = rows.free.pop_first() else {
        return Ok(None);
    };
    rows.busy.insert((interval.end, row))?;
    Ok(Some(row))
}

/// Gives the interval a new row.
pub fn open_row(rows: &mut Rows, interval: Interval) -> Result<usize, AllocError>
    requires { rows.old.count + 1 < 2 ^ 64 }
    ensures row { IfOk result (λ row. row ≡ rows.old.count) }
    ensures count { OnOk result (rows.new.count ≡ rows.old.count + 1) }
    ensures opened { OnOk result (IsOpening interval rows.old rows.new) }
{
    let row = rows.count;
    rows.busy.insert((interval.end, row))?;
    rows.count += 1;
    Ok(row)
}
