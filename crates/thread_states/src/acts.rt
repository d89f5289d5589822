// The wires of acts and of meetings.

ghost use Rattle.std.specs.Prelude.{OnOk};
ghost use Rattle.thread_states.specs.Acts.{Idles, LeadsFrom, LeadsUnless, TakesAct};

use block_datapath::registers::Registers;
use block_datapath::states::at_stage;
use block_ir::code::{Act, ThreadCode};
use operator_wires::wires::Wires;
use std::alloc::AllocError;
use thread_slots::chains::Chains;
use thread_slots::meetings::meeting_stage;
use thread_slots::told::Told;

/// The wires of an act at a stage, which takes one state. It leads to the next stage, a return past all stages, and a wait at a
/// barrier to a meeting, which leads to the next stage where the barrier does not hold the thread.
pub fn take_act(
    wires: &mut Wires,
    registers: &Registers,
    chains: &mut Chains,
    code: &ThreadCode,
    stage: usize,
    act: &Act,
    next: usize,
    told: Told,
) -> Result<(), AllocError>
    ensures { OnOk result (TakesAct code.now registers.now told stage act.now next wires.old.signals wires.new.signals chains.old chains.new) }
{
    let rest = code.stages.len();
    let following = next.min(rest);
    let from = stage as u64;
    match act {
        Act::BarrierWait { .. } => {
            let number = meeting_stage(code, stage)?;
            lead_to(wires, registers, chains, from, number)?;
            let to = following as u64;
            lead_unless(wires, registers, chains, number, to, told.barred)
        }
        Act::Return => lead_to(wires, registers, chains, from, rest as u64),
        _ => lead_to(wires, registers, chains, from, following as u64),
    }
}

/// At the number of one stage that of another follows.
fn lead_to(
    wires: &mut Wires,
    registers: &Registers,
    chains: &mut Chains,
    from: u64,
    to: u64,
) -> Result<(), AllocError>
    ensures { OnOk result (LeadsFrom registers.now from to wires.old.signals wires.new.signals chains.old chains.new) }
{
    let at = at_stage(wires, registers, from)?;
    let target = wires.constant(registers.stage.width, to)?;
    chains.lead(wires, registers, at, target)
}

/// The same, unless a bit is set: then the thread waits.
pub fn lead_unless(
    wires: &mut Wires,
    registers: &Registers,
    chains: &mut Chains,
    from: u64,
    to: u64,
    barred: usize,
) -> Result<(), AllocError>
    ensures { OnOk result (LeadsUnless registers.now from to barred wires.old.signals wires.new.signals chains.old chains.new) }
{
    let at = at_stage(wires, registers, from)?;
    let target = wires.constant(registers.stage.width, to)?;
    let stays = wires.both(at, barred)?;
    chains.lead(wires, registers, at, target)?;
    chains.wait(wires, stays)
}

/// A number of the stage at which the thread waits forever.
pub fn idle(
    wires: &mut Wires,
    registers: &Registers,
    chains: &mut Chains,
    number: u64,
) -> Result<(), AllocError>
    ensures { OnOk result (Idles registers.now number wires.old.signals wires.new.signals chains.old chains.new) }
{
    let at = at_stage(wires, registers, number)?;
    chains.wait(wires, at)
}
