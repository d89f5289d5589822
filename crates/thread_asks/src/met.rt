// Which barrier a thread meets others at.

ghost use Rattle.std.specs.Prelude.{length, IfOk};
ghost use Rattle.thread_asks.specs.Met.{NamesStage, NamesMet};

use crate::fields::name_object;
use block_datapath::registers::Registers;
use block_datapath::states::at_stage;
use block_ir::code::{Act, Stage, ThreadCode};
use operator_wires::wires::Wires;
use std::alloc::AllocError;
use thread_slots::meetings::meeting_stage;

/// At the meeting of a wait the barrier of the wait.
pub fn name_met(
    wires: &mut Wires,
    registers: &Registers,
    code: &ThreadCode,
) -> Result<usize, AllocError>
    ensures { IfOk result (NamesMet code.now registers.now (length code.now.stages) wires.old.signals wires.new.signals) }
{
    let mut object = wires.constant(64, 0)?;
    for (number, stage) in code.stages.as_slice().iter().enumerate() {
        let next = name_stage(wires, registers, code, number, stage, object)?;
        object = next;
    }
    Ok(object)
}

fn name_stage(
    wires: &mut Wires,
    registers: &Registers,
    code: &ThreadCode,
    number: usize,
    stage: &Stage,
    object: usize,
) -> Result<usize, AllocError>
    ensures { IfOk result (NamesStage code.now registers.now number stage.now wires.old.signals wires.new.signals object) }
{
    match stage {
        Stage::Run(_) => Ok(object),
        Stage::Act { act, .. } => match act {
            Act::BarrierWait { barrier } => {
                let meeting = meeting_stage(code, number)?;
                let at = at_stage(wires, registers, meeting)?;
                name_object(wires, registers, object, code, at, *barrier)
            }
            _ => Ok(object),
        },
    }
}
