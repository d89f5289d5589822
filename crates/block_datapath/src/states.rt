// Stages and states as bits.

ghost use Rattle.block_datapath.specs.Chains.{TellsStage, TellsState};
ghost use Rattle.std.specs.Prelude.{IfOk};
ghost use Rattle.operator_wires.specs.Added.{NumberAdds};
ghost use Rattle.block_datapath.specs.Wired.{IsStateBit};

use crate::registers::Registers;
use operator_wires::wires::Wires;
use std::alloc::AllocError;

/// A state of a stage: the stage's wire `at`, the state's number, and the number of states of the stage.
#[derive(Clone, Copy)]
pub struct Moment {
    pub at: usize,
    pub state: u64,
    pub states: u64,
}

/// Whether the slot is at a stage.
pub fn at_stage(wires: &mut Wires, registers: &Registers, stage: u64) -> Result<usize, AllocError>
    ensures shows { IfOk result (TellsStage wires.old.signals wires.new.signals registers.now stage) }
    ensures wired { IfOk result (NumberAdds wires.old.signals wires.new.signals registers.now.stage.width registers.now.stage.register stage) }
{
    let held = registers.stage;
    wires.is_number(held.width, held.register, stage)
}

/// Whether the slot is in a state of a stage, and never in one that the stage does not have.
pub fn in_state(
    wires: &mut Wires,
    registers: &Registers,
    moment: Moment,
) -> Result<usize, AllocError>
    ensures shows { IfOk result (TellsState wires.old.signals wires.new.signals registers.now moment) }
    ensures wired { IfOk result (IsStateBit wires.old.signals wires.new.signals registers.now moment) }
{
    if moment.states <= 1 {
        Ok(moment.at)
    } else if moment.state < moment.states {
        let held = registers.state;
        let state = wires.is_number(held.width, held.register, moment.state)?;
        wires.both(moment.at, state)
    } else {
        wires.constant(1, 0)
    }
}
