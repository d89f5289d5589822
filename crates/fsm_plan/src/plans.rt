// The plans of codes, in their order.

ghost use Rattle.std.specs.Prelude.{◌≡◌, IfOk};
ghost use Rattle.fsm_plan.specs.Plans.{ArePlanned};
ghost use Rattle.fsm_plan.specs.Shares.{AreJoined};

use crate::plan;
use crate::shares::shares;
use block_ir::code::ThreadCode;
use block_ir::plan::Planned;
use sqlite_items::Items;
use std::alloc::{AllocError, Global};
use std::thread;
use std::thread::Threads;

/// The plans of the codes, in their order. At most `jobs` threads make them, that of the caller among them; so 1 job
/// starts none, and 0 counts as 1. The only error is want of memory.
pub fn plan_all<R: Threads + Sync>(
    rt: &R,
    alloc: Global,
    codes: &[ThreadCode],
    jobs: u32,
) -> Result<Items<Planned>, AllocError>
    ensures { IfOk result (ArePlanned codes.now) }
{
    let shares = shares(alloc, codes, jobs)?;
    let parts = thread::map_vec(rt, shares, &|share| plan_each(alloc, share))?;
    joined(alloc, parts)
}

/// The plans of the codes, one after another.
fn plan_each(alloc: Global, codes: &[ThreadCode]) -> Result<Items<Planned>, AllocError>
    ensures { IfOk result (ArePlanned codes.now) }
{
    let mut plans = Items::new(alloc);
    for code in codes {
        let planned = plan(alloc, code)?;
        plans.push(planned)?;
    }
    Ok(plans)
}

/// The lists of plans, one behind the other, where all were made.
fn joined(
    alloc: Global,
    parts: Vec<Result<Items<Planned>, AllocError>>,
) -> Result<Items<Planned>, AllocError>
    ensures { IfOk result (AreJoined parts.items) }
{
    let mut plans = Items::new(alloc);
    for part in parts {
        let part = part?;
        plans.append(part)?;
    }
    Ok(plans)
}
