// Where a core is needed though none may be asked.

ghost use Rattle.std.specs.Prelude.{◌≡◌, ℕ, ◌+◌, ◌<◌, ◌^◌, length, slice_get, Option, Some, IfOk};
ghost use Rattle.block_ir.specs.declared.code.Stage.TheVariants as taken;
ghost use Rattle.block_ir.specs.declared.plan.StagePlan.TheVariants as stage_plan;
ghost use Rattle.block_ir.specs.declared.plan.StagePlan.{StagePlan as PlanOfStage};
ghost use Rattle.thread_requests.specs.Needing.{NeedsMore, HasStates, IsBehind, AreTaken, IsNeedOf, IsNeedOfFirst, FitsStage, FitStages, takes_word, IsThere, IsNumbered, IsTaken};
ghost use Rattle.block_datapath.specs.Moves.{meeting};

use block_datapath::operations::start_of;
use block_datapath::registers::Registers;
use block_datapath::states::{Moment, at_stage, in_state};
use block_ir::block::{Block, Operation};
use block_ir::code::{Act, Stage, ThreadCode};
use block_ir::plan::{BlockPlan, Planned, StagePlan};
use operator_wires::wires::Wires;
use std::alloc::AllocError;
use thread_slots::meetings::meeting_stage;

/// A bit that is set where another one is, where a read takes its word, where the thread meets others, and where it waits forever.
pub fn need_stages(
    wires: &mut Wires,
    registers: &Registers,
    code: &ThreadCode,
    planned: &Planned,
    first: usize,
) -> Result<usize, AllocError>
    ensures { IfOk result (NeedsMore registers.now (FitStages registers.now code.now planned.now)
        (IsNeedOfFirst registers.now code.now planned.now (length code.now.stages)) wires.old.signals wires.new.signals first) }
{
    let mut need = first;
    for (number, stage) in code.stages.as_slice().iter().enumerate() {
        let next = need_stage(wires, registers, code, planned, number, stage, need)?;
        need = next;
    }
    Ok(need)
}

fn need_stage(
    wires: &mut Wires,
    registers: &Registers,
    code: &ThreadCode,
    planned: &Planned,
    number: usize,
    stage: &Stage,
    need: usize,
) -> Result<usize, AllocError>
    ensures { IfOk result (NeedsMore registers.now (FitsStage registers.now (length code.now.stages) number (slice_get planned.now.stages number))
        (IsNeedOf registers.now (length code.now.stages) number (Some stage.now) (slice_get planned.now.stages number)) wires.old.signals wires.new.signals need) }
{
    match stage {
        Stage::Run(block) => match planned.stages.get(number) {
            Some(plan) => need_run(wires, registers, number, block, plan, need),
            None => need_at(wires, registers, number as u64, need),
        },
        Stage::Act { act, .. } => need_act(wires, registers, code, number, act, need),
    }
}

/// A block by its plan, where the stage's plan is one of a block.
fn need_run(
    wires: &mut Wires,
    registers: &Registers,
    number: usize,
    block: &Block,
    plan: &StagePlan,
    need: usize,
) -> Result<usize, AllocError>
    ensures { IfOk result (λ after. (stages : ℕ) → NeedsMore registers.now (FitsStage registers.now stages number (Some plan.now))
        (IsNeedOf registers.now stages number (Some (taken.Run block.now)) (Some plan.now)) wires.old.signals wires.new.signals need after) }
{
    match plan {
        StagePlan::Run(plan) => need_block(wires, registers, number, block, plan, need),
        StagePlan::Act => need_at(wires, registers, number as u64, need),
    }
}

/// At an act a core is needed where one is asked, but at the meeting of a wait, where none is.
fn need_act(
    wires: &mut Wires,
    registers: &Registers,
    code: &ThreadCode,
    number: usize,
    act: &Act,
    need: usize,
) -> Result<usize, AllocError>
    ensures { IfOk result (λ after. (next : ℕ) (plan : Option PlanOfStage) → NeedsMore registers.now (FitsStage registers.now (length code.now.stages) number plan)
        (IsNeedOf registers.now (length code.now.stages) number (Some (taken.Act act.now next)) plan) wires.old.signals wires.new.signals need after) }
{
    match act {
        Act::BarrierWait { .. } => need_meeting(wires, registers, code, number, need),
        _ => Ok(need),
    }
}

fn need_meeting(
    wires: &mut Wires,
    registers: &Registers,
    code: &ThreadCode,
    number: usize,
    need: usize,
) -> Result<usize, AllocError>
    ensures { IfOk result (NeedsMore registers.now (IsNumbered registers.now (meeting (length code.now.stages) number))
        (IsThere registers.now (meeting (length code.now.stages) number)) wires.old.signals wires.new.signals need) }
{
    let meeting = meeting_stage(code, number)?;
    need_at(wires, registers, meeting, need)
}

/// In each state of a number of the stage.
fn need_at(
    wires: &mut Wires,
    registers: &Registers,
    number: u64,
    need: usize,
) -> Result<usize, AllocError>
    ensures { IfOk result (NeedsMore registers.now (IsNumbered registers.now number) (IsThere registers.now number) wires.old.signals wires.new.signals need) }
{
    let at = at_stage(wires, registers, number)?;
    wires.either(need, at)
}

fn need_block(
    wires: &mut Wires,
    registers: &Registers,
    number: usize,
    block: &Block,
    plan: &BlockPlan,
    need: usize,
) -> Result<usize, AllocError>
    ensures { IfOk result (λ after. (stages : ℕ) → NeedsMore registers.now (FitsStage registers.now stages number (Some (stage_plan.Run plan.now)))
        (IsNeedOf registers.now stages number (Some (taken.Run block.now)) (Some (stage_plan.Run plan.now))) wires.old.signals wires.new.signals need after) }
{
    let at = at_stage(wires, registers, number as u64)?;
    need_reads(wires, registers, block, plan, at, need)
}

/// Where the reads of a block take their words, at a stage that a bit tells.
fn need_reads(
    wires: &mut Wires,
    registers: &Registers,
    block: &Block,
    plan: &BlockPlan,
    at: usize,
    first: usize,
) -> Result<usize, AllocError>
    ensures { IfOk result (NeedsMore registers.now (HasStates registers.now at plan.now.states) (AreTaken registers.now at block.now plan.now (length block.now.operations))
        wires.old.signals wires.new.signals first) }
{
    let mut need = first;
    for (number, operation) in block.operations.as_slice().iter().enumerate() {
        let start = start_of(plan, number);
        let next = need_read(wires, registers, operation, at, plan.states, start, need)?;
        need = next;
    }
    Ok(need)
}

fn need_read(
    wires: &mut Wires,
    registers: &Registers,
    operation: &Operation,
    at: usize,
    states: u64,
    start: u64,
    need: usize,
) -> Result<usize, AllocError>
    ensures { IfOk result (NeedsMore registers.now (HasStates registers.now at states)
        (IsTaken registers.now at states start operation.now) wires.old.signals wires.new.signals need) }
{
    if is_read(operation) {
        need_word(wires, registers, at, states, start, need)
    } else {
        Ok(need)
    }
}

fn is_read(operation: &Operation) -> bool
    ensures { result ≡ takes_word (Some operation.now) }
{
    matches!(operation, Operation::ReadGlobal { .. })
}

/// A word is taken in the state behind that in which its read starts.
fn need_word(
    wires: &mut Wires,
    registers: &Registers,
    at: usize,
    states: u64,
    start: u64,
    need: usize,
) -> Result<usize, AllocError>
    ensures { IfOk result (NeedsMore registers.now (HasStates registers.now at states) (IsBehind registers.now at states start) wires.old.signals wires.new.signals need) }
{
    let state = following(start);
    let moment = Moment { at, state, states };
    let here = in_state(wires, registers, moment)?;
    wires.either(need, here)
}

/// The state behind another one, if its number has 64 bits.
fn following(state: u64) -> u64
    ensures { state + 1 < 2 ^ 64 → result ≡ state + 1 }
{
    state.saturating_add(1)
}
