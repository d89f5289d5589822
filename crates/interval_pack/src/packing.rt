// The packing.
ghost use Rattle.std.specs.Prelude.{IfOk};
ghost use Rattle.interval_pack.specs.Sparse.{IsSparsePacking};

use crate::chosen::{choose, spread};
use crate::{Interval, Packing, pack};
use std::alloc::{AllocError, Global};

/// Gives each interval that has a place, by start and then by index, the least row that is free at its start, and the
/// others row 0. For n intervals it takes time in proportion to n log n. The only error is want of memory.
pub fn pack_some(alloc: Global, intervals: &[Interval]) -> Result<Packing, AllocError>
    ensures { IfOk result (λ p. IsSparsePacking intervals.now p.row.items p.rows p.crowded) }
{
    let mut chosen = Vec::new(alloc);
    let mut solid = Vec::new(alloc);
    for i in 0..intervals.len() {
        choose(&mut chosen, &mut solid, i, intervals[i])?;
    }
    let packing = pack(alloc, &solid)?;
    let mut row = vec![in alloc; 0; intervals.len()]?;
    spread(&mut row, &chosen, &packing.row);
    Ok(Packing {
        row,
        rows: packing.rows,
        crowded: packing.crowded,
    })
}
