// The wires of all stages, one after the other.

ghost use Rattle.std.specs.Prelude.{length, slice_get, Some, OnOk};
ghost use Rattle.block_ir.specs.declared.plan.StagePlan.TheVariants as stage_plan;
ghost use Rattle.thread_states.specs.Cells.{StoresBlock, StoresStage, StoresFirst};
ghost use Rattle.thread_states.specs.Stores.{StageKeepsStores, StagesKeepStores};
ghost use Rattle.thread_states.specs.Stages.{RunsBlock, TakesStage, WalksFirst};

use crate::acts::{idle, take_act};
use block_datapath::leaving_block::leave_block;
use block_datapath::registers::Registers;
use block_ir::block::Block;
use block_ir::code::{Stage, ThreadCode};
use block_ir::plan::{BlockPlan, Planned, StagePlan};
use hls_ints::CType;
use operator_wires::wires::Wires;
use sqlite_items::Items;
use std::alloc::AllocError;
use thread_slots::chains::Chains;
use thread_slots::stores::{Store, store_all};
use thread_slots::told::Told;

/// The wires of all stages.
pub fn take_stages(
    wires: &mut Wires,
    registers: &Registers,
    chains: &mut Chains,
    stores: &mut Items<Store>,
    code: &ThreadCode,
    globals: &[CType],
    planned: &Planned,
    told: Told,
) -> Result<(), AllocError>
    ensures walks { OnOk result (WalksFirst globals.now code.now registers.now told planned.now wires.old.signals wires.new.signals chains.old chains.new
        (length code.now.stages)) }
    ensures puts { OnOk result (StoresFirst globals.now code.now registers.now planned.now wires.old.signals wires.new.signals stores.old stores.new (length code.now.stages)) }
    ensures stores { OnOk result (StagesKeepStores code.now registers.now planned.now told.barred
        (length code.now.stages) wires.old.signals wires.new.signals chains.old stores.old stores.new) }
{
    for (number, stage) in code.stages.as_slice().iter().enumerate() {
        take_stage(
            wires, registers, chains, stores, code, globals, planned, number, stage, told,
        )?;
    }
    Ok(())
}

fn take_stage(
    wires: &mut Wires,
    registers: &Registers,
    chains: &mut Chains,
    stores: &mut Items<Store>,
    code: &ThreadCode,
    globals: &[CType],
    planned: &Planned,
    number: usize,
    stage: &Stage,
    told: Told,
) -> Result<(), AllocError>
    ensures takes { OnOk result (TakesStage globals.now code.now registers.now told number stage.now
        (slice_get planned.now.stages number) wires.old.signals wires.new.signals chains.old chains.new) }
    ensures puts { OnOk result (StoresStage globals.now code.now registers.now number stage.now
        (slice_get planned.now.stages number) wires.old.signals wires.new.signals stores.old stores.new) }
    ensures stores { OnOk result (StageKeepsStores code.now registers.now number (slice_get planned.now.stages number) wires.old.signals wires.new.signals
        chains.old stores.old stores.new) }
{
    match stage {
        Stage::Run(block) => match planned.stages.get(number) {
            Some(StagePlan::Run(plan)) => run(
                wires, registers, chains, stores, code, globals, number, block, plan,
            ),
            _ => idle(wires, registers, chains, number as u64),
        },
        Stage::Act { act, next } => take_act(
            wires, registers, chains, code, number, act, *next, told,
        ),
    }
}

/// The wires of a block at a stage.
fn run(
    wires: &mut Wires,
    registers: &Registers,
    chains: &mut Chains,
    stores: &mut Items<Store>,
    code: &ThreadCode,
    globals: &[CType],
    number: usize,
    block: &Block,
    plan: &BlockPlan,
) -> Result<(), AllocError>
    ensures runs { OnOk result (RunsBlock globals.now code.now registers.now number block.now plan.now wires.old.signals wires.new.signals chains.old chains.new) }
    ensures puts { OnOk result (StoresBlock globals.now code.now registers.now number block.now plan.now wires.old.signals wires.new.signals stores.old stores.new) }
    ensures stores { OnOk result (StageKeepsStores code.now registers.now number (Some (stage_plan.Run plan.now)) wires.old.signals wires.new.signals
        chains.old stores.old stores.new) }
{
    let left = leave_block(
        wires,
        registers,
        &mut chains.variables,
        &mut chains.kept,
        code,
        globals,
        number as u64,
        block,
        plan,
    )?;
    let given = left.values.as_slice();
    store_all(wires, registers, stores, code, block, plan, given, left.end)?;
    chains.lead(wires, registers, left.last, left.target)
}
