// Which stages are used.

ghost use Rattle.std.specs.Prelude.{◌≡◌, ◌||◌, true, not, nat_eq, slice_set, IfOk};
ghost use Rattle.code_merge.specs.Dropping as steps;
ghost use Rattle.code_merge.specs.Used as spec;

use block_ir::block::Next;
use block_ir::code::Stage;
use sqlite_items::Items;
use std::alloc::{AllocError, Global};

fn is_first(next: &Next) -> bool
    ensures { result ≡ spec.leads_to_first next.now }
{
    match next {
        Next::Jump(stage) => *stage == 0,
        Next::Branch { .. } => false,
    }
}

fn is_empty(stage: &Stage) -> bool
    ensures { result ≡ spec.is_empty stage.now }
{
    match stage {
        Stage::Run(block) => {
            block.operations.len() == 0
                && block.finals.len() == 0
                && block.steps == 1
                && is_first(&block.next)
        }
        Stage::Act { .. } => false,
    }
}

/// A way leads to this stage.
fn mark(led: &mut Items<bool>, at: usize)
    ensures { led.new ≡ slice_set led.old at true }
{
    if at < led.len() {
        led.set(at, true);
    }
}

fn mark_next(led: &mut Items<bool>, stage: &Stage)
    ensures { led.new ≡ steps.marked led.old stage.now }
{
    match stage {
        Stage::Act { next, .. } => mark(led, *next),
        Stage::Run(block) => match &block.next {
            Next::Jump(next) => mark(led, *next),
            Next::Branch { nonzero, zero, .. } => {
                mark(led, *nonzero);
                mark(led, *zero);
            }
        },
    }
}

fn none(alloc: Global, length: usize) -> Result<Items<bool>, AllocError>
    ensures { IfOk result (steps.AreUnset length) }
{
    let mut none = Items::new(alloc);
    for done in 0..length {
        none.push(false)?;
    }
    Ok(none)
}

/// For each stage whether another one leads to it.
fn led_to(alloc: Global, stages: &[Stage]) -> Result<Items<bool>, AllocError>
    ensures { IfOk result (steps.AreLed stages.now) }
{
    let mut led = none(alloc, stages.len())?;
    for stage in stages {
        mark_next(&mut led, stage);
    }
    Ok(led)
}

fn is_used(at: usize, stage: &Stage, led: bool) -> bool
    ensures { result ≡ (nat_eq at 0 || not (spec.is_empty stage.now) || led) }
{
    at == 0 || !is_empty(stage) || led
}

/// For each stage whether it is used.
pub fn used(alloc: Global, stages: &[Stage]) -> Result<Items<bool>, AllocError>
    ensures { IfOk result (λ us. us ≡ spec.used stages.now) }
{
    let led = led_to(alloc, stages)?;
    let mut used = Items::new(alloc);
    for (at, stage) in stages.iter().enumerate() {
        used.push(is_used(at, stage, led.as_slice()[at]))?;
    }
    Ok(used)
}
