// The empty stages that nothing leads to are dropped.

ghost use Rattle.std.specs.Prelude.{◌≡◌, ◌≢◌, ℕ, ◌<◌, length, map, Some, slice_get, IfOk};
ghost use Rattle.c_program.specs.Tree.{Program as GhostProgram};
ghost use Rattle.code_following.specs.Following.{IsLowered};
ghost use Rattle.code_following.specs.Idle.{idle_count};
ghost use Rattle.code_following.specs.Typed.{IsTypedCode};
ghost use Rattle.code_merge.specs.Maximal.{IsMaximal, ways};
ghost use Rattle.code_merge.specs.Dropping as steps;
ghost use Rattle.code_merge.specs.Used as spec;

use crate::leading::used;
use crate::numbers::{Numbers, numbers_of};
use block_ir::code::{Stage, ThreadCode};
use sqlite_items::Items;
use std::alloc::{AllocError, Global};
use std::mem;

/// Those of the stages that are used, which lead to the new numbers.
fn kept(
    alloc: Global,
    stages: Items<Stage>,
    used: &[bool],
    numbers: &Numbers,
) -> Result<Items<Stage>, AllocError>
    requires { length used.now ≡ length stages }
    ensures { IfOk result (λ new. new ≡ map (spec.renumbered (steps.number_in numbers.now)) (spec.kept used.now stages)) }
{
    let mut rest = stages;
    let mut last_first = Vec::new(alloc);
    while let Some(stage) = rest.pop() {
        if used[rest.len()] {
            last_first.push(numbers.renumber(stage))?;
        } else {
            mem::drop(stage);
        }
    }
    last_first.reverse();
    Ok(Items::from_vec(last_first))
}

fn used_stages(alloc: Global, stages: Items<Stage>) -> Result<Items<Stage>, AllocError>
    ensures { IfOk result (λ new. new ≡ spec.used_stages stages) }
{
    let used = used(alloc, stages.as_slice())?;
    let numbers = numbers_of(alloc, used.as_slice())?;
    kept(alloc, stages, used.as_slice(), &numbers)
}

/// The same code without the stages but the first that are empty blocks and that nothing leads to, such as merging leaves. The
/// others keep their order and are numbered anew.
///
/// The only error is want of memory.
pub fn drop_empty(alloc: Global, code: ThreadCode) -> Result<ThreadCode, AllocError>
    ensures code { IfOk result (λ c. c ≡ spec.with_used code) }
    ensures typed { IfOk result (λ c. (P : GhostProgram) (f : ℕ) → IsTypedCode P f code → IsTypedCode P f c) }
    ensures lowered { IfOk result (λ c. (P : GhostProgram) (f : ℕ) → IsLowered P f code → IsLowered P f c) }
    ensures idle { IfOk result (λ c. idle_count c.stages ≡ idle_count code.stages) }
    ensures maximal { IfOk result (λ c. (most : ℕ) → IsMaximal most code → IsMaximal most c) }
    ensures tight { IfOk result (λ c. (l : ℕ) → l ≢ 0 → slice_get c.stages l ≡ Some spec.empty → 0 < ways l c.stages) }
{
    let ThreadCode {
        argument,
        variables,
        names,
        arrays,
        stages,
    } = code;
    let stages = used_stages(alloc, stages)?;
    Ok(ThreadCode {
        argument,
        variables,
        names,
        arrays,
        stages,
    })
}
