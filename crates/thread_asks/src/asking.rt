// What is asked of cores, stage by stage, by wires that read registers alone.

ghost use Rattle.std.specs.Prelude.{ℕ, List, slice_get, Option, IfOk, OnOk};
ghost use Rattle.block_ir.specs.declared.code.Stage.TheVariants as taken;
ghost use Rattle.block_ir.specs.declared.plan.StagePlan.{StagePlan as PlanOfStage};
ghost use Rattle.hls_ints.specs.Types.{IntegerType};
ghost use Rattle.bank_partition.specs.declared.banks.Spread.{Spread as SpreadOf};
ghost use Rattle.thread_asks.specs.Asking.{CallsAt, AsksStage, AsksAllWired};

use crate::fields::{ask_number, ask_values, name_object};
use bank_partition::banks::Spread;
use block_datapath::accesses::ask_block;
use block_datapath::registers::Registers;
use block_datapath::states::at_stage;
use block_ir::code::{Act, ActOperand, Stage, ThreadCode};
use block_ir::plan::{Planned, StagePlan};
use hls_ints::CType;
use operator_wires::wires::Wires;
use std::alloc::AllocError;
use thread_slots::requests::{Request, Requests};
use thread_slots::shape::Served;

/// Who asks.
#[derive(Clone, Copy)]
pub struct Caller {
    /// Whether the thread is main.
    pub is_main: bool,
    /// The cores that acts ask.
    pub served: Served,
}

/// What all stages ask, and the end, where nothing is. Answers whether the slot is at the end, where main has ended, and
/// another thread has not begun.
pub fn ask_stages(
    wires: &mut Wires,
    registers: &Registers,
    requests: &mut Requests,
    code: &ThreadCode,
    globals: &[CType],
    spreads: &[Spread],
    caller: Caller,
    planned: &Planned,
) -> Result<usize, AllocError>
    ensures { IfOk result (AsksAllWired globals.now spreads.now code.now registers.now caller planned.now wires.old.signals wires.new.signals requests.old requests.new) }
{
    for (number, stage) in code.stages.as_slice().iter().enumerate() {
        ask_stage(
            wires, registers, requests, code, globals, spreads, caller, planned, number, stage,
        )?;
    }
    at_stage(wires, registers, code.stages.len() as u64)
}

/// A block by its plan, where the stage's plan is one of a block; or what an act asks.
fn ask_stage(
    wires: &mut Wires,
    registers: &Registers,
    requests: &mut Requests,
    code: &ThreadCode,
    globals: &[CType],
    spreads: &[Spread],
    caller: Caller,
    planned: &Planned,
    number: usize,
    stage: &Stage,
) -> Result<(), AllocError>
    ensures { OnOk result (AsksStage globals.now spreads.now code.now registers.now caller number stage.now
        (slice_get planned.now.stages number) wires.old.signals wires.new.signals
        requests.old requests.new) }
{
    match stage {
        Stage::Run(block) => match planned.stages.get(number) {
            Some(StagePlan::Run(plan)) => {
                let banks = &mut requests.banks;
                let number = number as u64;
                ask_block(
                    wires, registers, banks, code, globals, spreads, number, block, plan,
                )
            }
            _ => Ok(()),
        },
        Stage::Act { act, .. } => ask_act(wires, registers, requests, code, caller, number, act),
    }
}

/// What an act asks, by the table of acts (`request_of`). A return finishes the thread's id; that of main asks nothing.
fn ask_act(
    wires: &mut Wires,
    registers: &Registers,
    requests: &mut Requests,
    code: &ThreadCode,
    caller: Caller,
    stage: usize,
    act: &Act,
) -> Result<(), AllocError>
    ensures { OnOk result ((globals : List IntegerType) (spreads : List SpreadOf) (next : ℕ) (plan : Option PlanOfStage) →
        AsksStage globals spreads code.now registers.now caller stage
        (taken.Act act.now next) plan wires.old.signals wires.new.signals requests.old requests.new) }
{
    match act {
        Act::Print { site, values } => {
            let core = &mut requests.printer;
            let width = caller.served.printer.site_width;
            let values = values.as_slice();
            call(
                wires, registers, core, code, stage, width, *site, None, values,
            )
        }
        Act::Create { thread, argument } => {
            let core = &mut requests.thread_ids;
            let values = [*thread, *argument];
            call(wires, registers, core, code, stage, 2, 0, None, &values)
        }
        Act::Join { thread } => {
            let core = &mut requests.thread_ids;
            call(wires, registers, core, code, stage, 2, 1, None, &[*thread])
        }
        Act::MutexInit { mutex } => {
            let core = &mut requests.mutex;
            call(wires, registers, core, code, stage, 2, 0, Some(*mutex), &[])
        }
        Act::MutexLock { mutex } => {
            let core = &mut requests.mutex;
            call(wires, registers, core, code, stage, 2, 1, Some(*mutex), &[])
        }
        Act::MutexUnlock { mutex } => {
            let core = &mut requests.mutex;
            call(wires, registers, core, code, stage, 2, 2, Some(*mutex), &[])
        }
        Act::MutexDestroy { mutex } => {
            let core = &mut requests.mutex;
            call(wires, registers, core, code, stage, 2, 3, Some(*mutex), &[])
        }
        Act::BarrierInit { barrier, count } => {
            let core = &mut requests.barrier;
            let object = Some(*barrier);
            call(wires, registers, core, code, stage, 2, 0, object, &[*count])
        }
        Act::BarrierWait { barrier } => {
            let core = &mut requests.barrier;
            let object = Some(*barrier);
            call(wires, registers, core, code, stage, 2, 1, object, &[])
        }
        Act::BarrierDestroy { barrier } => {
            let core = &mut requests.barrier;
            let object = Some(*barrier);
            call(wires, registers, core, code, stage, 2, 2, object, &[])
        }
        Act::Return => {
            if caller.is_main {
                Ok(())
            } else {
                let core = &mut requests.thread_ids;
                call(wires, registers, core, code, stage, 2, 2, None, &[])
            }
        }
    }
}

/// At a stage a core is asked, by a number of this width and these values; of the cores of a kind that has objects the one of an
/// object.
fn call(
    wires: &mut Wires,
    registers: &Registers,
    request: &mut Request,
    code: &ThreadCode,
    stage: usize,
    width: u64,
    number: u32,
    object: Option<ActOperand>,
    values: &[ActOperand],
) -> Result<(), AllocError>
    ensures { OnOk result (CallsAt code.now registers.now stage width number object values.now wires.old.signals wires.new.signals request.old request.new) }
{
    let at = at_stage(wires, registers, stage as u64)?;
    if let Some(object) = object {
        let named = name_object(wires, registers, request.object, code, at, object)?;
        request.object = named;
    }
    request.want(wires, at)?;
    let fields = &mut request.fields;
    ask_number(wires, fields, width, at, number)?;
    ask_values(wires, registers, fields, code, at, values)
}
