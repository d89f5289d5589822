// Rows of intervals.
use interval_pack::{Interval, Packing, pack, pack_some};
use std::test::Fail;

/// Whether the intervals have these rows: two at most meet, first in place 1.
fn is_packed(packing: Packing, row: &[usize]) -> bool {
    packing.row.as_slice() == row && packing.rows == 2 && packing.crowded == 1
}

/// Intervals that meet have different rows, and one without a place meets none.
#[test]
fn intervals_that_meet_have_different_rows(rt: HostRuntime) -> Result<(), Fail> {
    let all = [
        Interval { start: 0, end: 3 },
        Interval { start: 1, end: 4 },
        Interval { start: 3, end: 5 },
    ];
    let packing = pack(rt.alloc(), &all)?;
    assert!(rt; is_packed(packing, &[0, 1, 0]));
    let some = [
        Interval { start: 0, end: 3 },
        Interval { start: 2, end: 2 },
        Interval { start: 1, end: 4 },
    ];
    let packing = pack_some(rt.alloc(), &some)?;
    assert!(rt; is_packed(packing, &[0, 0, 1]));
    Ok(())
}
