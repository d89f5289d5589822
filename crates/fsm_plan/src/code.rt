// The plan of the code of a thread.
ghost use Rattle.std.specs.Prelude.{◌≤◌, ◌≡◌, IfOk, max};
ghost use Rattle.fsm_plan.specs.Planned.{IsNumberedCode, IsPlanned};
ghost use Rattle.fsm_plan.specs.Stages.{IsPlannedAlone};

use crate::blocks::plan_block;
use block_ir::code::{Stage, ThreadCode};
use block_ir::plan::{Planned, StagePlan};
use sqlite_items::Items;
use std::alloc::{AllocError, Global};

/// The plan of a stage, and the greatest number of values that live in one state of it.
#[derive(Drop)]
pub struct PlannedStage {
    pub plan: StagePlan,
    pub registers: u32,
}

/// The plan of the code: of each block least starts, shared units and packed registers, and as many registers as some
/// state of some block uses. The only error is want of memory.
///
/// A code with a block of 2 ^ 32 operations or more, whose values have no names, gets some plan.
pub fn plan(alloc: Global, code: &ThreadCode) -> Result<Planned, AllocError>
    ensures { IfOk result (λ p. IsNumberedCode code.now → IsPlanned code.now p) }
{
    let mut stages = Items::new(alloc);
    let mut registers = 0;
    for stage in code.stages.as_slice() {
        let planned = plan_stage(alloc, stage)?;
        registers = greater(registers, planned.registers);
        stages.push(planned.plan)?;
    }
    Ok(Planned { stages, registers })
}

fn greater(left: u32, right: u32) -> u32
    ensures { result ≡ max left right }
{
    left.max(right)
}

fn plan_stage(alloc: Global, stage: &Stage) -> Result<PlannedStage, AllocError>
    ensures { IfOk result (λ p. IsPlannedAlone stage.now p.plan p.registers) }
{
    match stage {
        Stage::Run(block) => {
            let bound = plan_block(alloc, block)?;
            Ok(PlannedStage {
                plan: StagePlan::Run(bound.plan),
                registers: bound.registers,
            })
        }
        Stage::Act { .. } => Ok(PlannedStage {
            plan: StagePlan::Act,
            registers: 0,
        }),
    }
}
