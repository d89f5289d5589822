// Which block may stand behind which.

ghost use Rattle.std.specs.Prelude.{◌≡◌, ◌≢◌, ◌↔◌, ℕ, ◌+◌, ◌^◌, ◌<◌, ◌≤◌, min, length, Some, None, slice_get, IsTrue, IfOk, OnOk};
ghost use Rattle.std.specs.Option.{option_copied};
ghost use Rattle.code_merge.specs.Maximal.{ways, AreCounted};
ghost use Rattle.code_merge.specs.Steps as steps;
ghost use Rattle.code_merge.specs.Counting as counting;

use block_ir::block::{Block, Next};
use block_ir::code::Stage;
use sqlite_items::Items;
use std::alloc::{AllocError, Global};

pub fn block_at(stages: &[Stage], at: usize) -> Option<&Block>
    ensures { option_copied result ≡ steps.block_in (slice_get stages.now at) }
{
    match stages.get(at) {
        Some(Stage::Run(block)) => Some(block),
        _ => None,
    }
}

pub fn jump_of(next: &Next) -> Option<usize>
    ensures { result ≡ steps.jump_in next.now }
{
    match next {
        Next::Jump(stage) => Some(*stage),
        Next::Branch { .. } => None,
    }
}

pub fn is_once(counts: &[usize], at: usize) -> bool
    ensures { IsTrue result ↔ (slice_get counts.now at ≡ Some 1) }
{
    at < counts.len() && counts[at] == 1
}

fn are_within(left: usize, right: usize, most: usize) -> bool
    ensures { IsTrue result ↔ (left + right ≤ most) }
{
    match left.checked_add(right) {
        Some(sum) => sum <= most,
        None => false,
    }
}

/// Whether both are small enough for one block, and take steps.
pub fn fit(block: &Block, next: &Block, most: usize) -> bool
    ensures { IsTrue result ↔ steps.FitTogether most block.now next.now }
{
    let left = block.operations.len();
    let right = next.operations.len();
    are_within(left, right, most)
        && are_within(left, right, u32::MAX as usize)
        && are_within(block.steps as usize, next.steps as usize, u32::MAX as usize)
        && block.steps > 0
        && next.steps > 0
}

fn more(count: usize) -> usize
    ensures { result ≡ counting.one_more count }
{
    if count < 1 { 1 } else { 2 }
}

/// One more way leads to a stage.
fn count(counts: &mut Items<usize>, at: usize)
    ensures { counts.new ≡ counting.counted counts.old at }
{
    if let Some(before) = counts.get(at) {
        let now = more(*before);
        counts.set(at, now);
    }
}

fn count_stage(counts: &mut Items<usize>, stage: &Stage)
    ensures { counts.new ≡ counting.stage_counted counts.old stage.now }
{
    match stage {
        Stage::Act { next, .. } => count(counts, *next),
        Stage::Run(block) => match &block.next {
            Next::Jump(next) => count(counts, *next),
            Next::Branch { nonzero, zero, .. } => {
                count(counts, *nonzero);
                count(counts, *zero);
            }
        },
    }
}

fn zeros(alloc: Global, length: usize) -> Result<Items<usize>, AllocError>
    ensures { IfOk result (counting.AreZero length) }
{
    Ok(Items::from_vec(vec![in alloc; 0; length]?))
}

/// In how many ways each stage is led to, up to two.
pub fn counts(alloc: Global, stages: &[Stage]) -> Result<Items<usize>, AllocError>
    ensures { IfOk result (AreCounted stages.now) }
{
    let mut counts = zeros(alloc, stages.len())?;
    for stage in stages {
        count_stage(&mut counts, stage);
    }
    Ok(counts)
}
