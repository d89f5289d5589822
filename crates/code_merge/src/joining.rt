// Two blocks in one.

ghost use Rattle.std.specs.Prelude.{◌≡◌, ◌+◌, ◌^◌, ◌<◌, List, ◌++◌, length, map, OnOk};
ghost use Rattle.block_ir.specs.declared.block.Final.{Final as GhostFinal};
ghost use Rattle.code_blocks.specs.Closing.{HasNoted};
ghost use Rattle.code_merge.specs.Joined as spec;

use crate::moving::{Before, moved_finals, moved_next, push_moved};
use block_ir::block::{Block, Final};
use code_blocks::open_block::OpenBlock;
use code_blocks::operands::copy_of;
use sqlite_items::Items;
use std::alloc::{AllocError, Global};

/// Variables hold what these finals give them, from now on.
#[tactic(auto, using(crate::proofs::MergedCode::left_more))]
pub fn hold(alloc: Global, held: &mut OpenBlock, finals: &[Final]) -> Result<(), AllocError>
    ensures left { OnOk result ((fs : List GhostFinal) → spec.HasLeft held.old.current fs → spec.HasLeft held.new.current (fs ++ finals.now)) }
    ensures noted { OnOk result (HasNoted held.old → HasNoted held.new) }
    ensures size { OnOk result (length held.new.current ≡ length held.old.current) }
{
    for last in finals {
        let value = copy_of(alloc, &last.value)?;
        held.set(last.variable, value)?;
    }
    Ok(())
}

/// The next block behind one of which variables hold what it leaves. Then they hold what both leave.
pub fn join_next(
    alloc: Global,
    held: &mut OpenBlock,
    block: &mut Block,
    next: &Block,
) -> Result<(), AllocError>
    requires few { length block.old.operations + length next.now.operations < 2 ^ 32 }
    requires steps { block.old.steps + next.now.steps < 2 ^ 32 }
    ensures block { OnOk result (block.new ≡ spec.joined held.old.current block.old next.now) }
    ensures left { OnOk result (spec.HasLeft held.old.current block.old.finals → spec.HasLeft held.new.current block.new.finals) }
    ensures noted { OnOk result (HasNoted held.old → HasNoted held.new) }
    ensures size { OnOk result (length held.new.current ≡ length held.old.current) }
{
    let before = Before {
        count: block.operations.len() as u32,
        left: held,
    };
    push_moved(
        alloc,
        &before,
        &mut block.operations,
        next.operations.as_slice(),
    )?;
    let more = moved_finals(alloc, &before, next.finals.as_slice())?;
    block.next = moved_next(alloc, &before, &next.next)?;
    hold(alloc, held, more.as_slice())?;
    block.finals.append(more)?;
    block.steps += next.steps;
    Ok(())
}
