// Links of the multiplexers of units, one for each operation.

ghost use Rattle.std.specs.Prelude.{◌≡◌, ◌≤◌, ◌||◌, length, slice_get, OnOk};
ghost use Rattle.unit_datapath.specs.Links.{LinksOperands, LinksOperation, LinksFirst, LinksBlock, LinksStage, LinksStages, HasWork};

use crate::inputs::{UnitInputs, link_unit};
use crate::kinds::{UnitKind, is_shared, is_work};
use crate::states::at_work;
use crate::words::unit_word;
use block_datapath::leaving_block::end_of;
use block_datapath::operations::{start_of, unit_of};
use block_datapath::registers::Registers;
use block_datapath::states::{Moment, at_stage};
use block_datapath::timing::further_states;
use block_ir::block::{Block, Operation};
use block_ir::code::{Stage, ThreadCode};
use block_ir::operand::Operand;
use block_ir::plan::{BlockPlan, Planned, StagePlan};
use hls_ints::CType;
use operator_wires::wires::Wires;
use std::alloc::AllocError;

/// The operands of each operation that shares a unit of the kind, for its unit, while it works.
pub fn link_stages(
    wires: &mut Wires,
    inputs: &mut UnitInputs,
    registers: &Registers,
    code: &ThreadCode,
    planned: &Planned,
    kind: &UnitKind,
) -> Result<(), AllocError>
    ensures { OnOk result (LinksStages code.now registers.now kind.now planned.now wires.old.signals wires.new.signals inputs.old inputs.new (length code.now.stages)) }
{
    for (number, stage) in code.stages.as_slice().iter().enumerate() {
        link_stage(wires, inputs, registers, code, planned, kind, number, stage)?;
    }
    Ok(())
}

/// A stage, where it is a block by a plan of one and has work for a unit of the kind.
fn link_stage(
    wires: &mut Wires,
    inputs: &mut UnitInputs,
    registers: &Registers,
    code: &ThreadCode,
    planned: &Planned,
    kind: &UnitKind,
    number: usize,
    stage: &Stage,
) -> Result<(), AllocError>
    ensures { OnOk result
        (LinksStage code.now registers.now kind.now number stage.now (slice_get planned.now.stages number) wires.old.signals wires.new.signals inputs.old inputs.new) }
{
    match stage {
        Stage::Run(block) => match planned.stages.get(number) {
            Some(plan) => match plan {
                StagePlan::Run(plan) => {
                    if has_work(kind, block) {
                        let stage = number as u64;
                        link_block(wires, inputs, registers, code, kind, stage, block, plan)
                    } else {
                        Ok(())
                    }
                }
                StagePlan::Act => Ok(()),
            },
            None => Ok(()),
        },
        Stage::Act { .. } => Ok(()),
    }
}

/// Whether an operation of the block shares a unit of the kind.
fn has_work(kind: &UnitKind, block: &Block) -> bool
    ensures { HasWork kind.now block.now (length block.now.operations) result }
{
    let mut found = false;
    for operation in block.operations.as_slice() {
        let own = is_work(kind, operation);
        found = either(found, own);
    }
    found
}

fn either(left: bool, right: bool) -> bool
    ensures { result ≡ (left || right) }
{
    left || right
}

/// The operations of a block at a stage.
fn link_block(
    wires: &mut Wires,
    inputs: &mut UnitInputs,
    registers: &Registers,
    code: &ThreadCode,
    kind: &UnitKind,
    stage: u64,
    block: &Block,
    plan: &BlockPlan,
) -> Result<(), AllocError>
    ensures { OnOk result (LinksBlock code.now registers.now kind.now stage block.now plan.now wires.old.signals wires.new.signals inputs.old inputs.new) }
{
    let at = at_stage(wires, registers, stage)?;
    let end = end_of(at, plan);
    link_all(wires, inputs, registers, code, kind, block, plan, end)
}

fn link_all(
    wires: &mut Wires,
    inputs: &mut UnitInputs,
    registers: &Registers,
    code: &ThreadCode,
    kind: &UnitKind,
    block: &Block,
    plan: &BlockPlan,
    end: Moment,
) -> Result<(), AllocError>
    ensures { OnOk result (LinksFirst code.now registers.now kind.now block.now plan.now end wires.old.signals wires.new.signals inputs.old inputs.new
        (length block.now.operations)) }
{
    for (number, operation) in block.operations.as_slice().iter().enumerate() {
        link_operation(
            wires, inputs, registers, code, kind, plan, number, end, operation,
        )?;
    }
    Ok(())
}

/// An operation, if it shares a unit of the kind.
fn link_operation(
    wires: &mut Wires,
    inputs: &mut UnitInputs,
    registers: &Registers,
    code: &ThreadCode,
    kind: &UnitKind,
    plan: &BlockPlan,
    number: usize,
    end: Moment,
    operation: &Operation,
) -> Result<(), AllocError>
    ensures { OnOk result (LinksOperation code.now registers.now kind.now plan.now end number operation.now wires.old.signals wires.new.signals inputs.old inputs.new) }
{
    let further = further_states(operation);
    match operation {
        Operation::Binary {
            operator,
            ty,
            left,
            right,
        } => {
            if is_shared(kind, *operator, *ty, left, right) {
                link_operands(
                    wires, inputs, registers, code, plan, kind.ty, number, end, further, left,
                    right,
                )
            } else {
                Ok(())
            }
        }
        _ => Ok(()),
    }
}

/// The unit of an operation gets its operands, in the states in which it works.
fn link_operands(
    wires: &mut Wires,
    inputs: &mut UnitInputs,
    registers: &Registers,
    code: &ThreadCode,
    plan: &BlockPlan,
    ty: CType,
    number: usize,
    end: Moment,
    further: u64,
    left: &Operand,
    right: &Operand,
) -> Result<(), AllocError>
    requires { further ≤ 7 }
    ensures { OnOk result (LinksOperands code.now registers.now plan.now ty number end further left.now right.now wires.old.signals wires.new.signals
        inputs.old inputs.new) }
{
    let types = code.variables.as_slice();
    let start = start_of(plan, number);
    let unit = unit_of(plan, number) as usize;
    let here = at_work(wires, registers, end, start, further)?;
    let first = unit_word(wires, registers, types, plan, ty, left)?;
    let second = unit_word(wires, registers, types, plan, ty, right)?;
    let width = u64::from(ty.bits());
    link_unit(wires, inputs, unit, width, here, first.place, second.place)
}
