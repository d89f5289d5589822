// The wires of the rest, past all stages.

ghost use Rattle.std.specs.Prelude.{OnOk};
ghost use Rattle.thread_states.specs.Acts.{EndsAt};

use crate::acts::{idle, lead_unless};
use block_datapath::registers::{Registers, set_next};
use block_datapath::states::at_stage;
use block_ir::code::ThreadCode;
use operator_wires::wires::Wires;
use std::alloc::AllocError;
use thread_slots::chains::Chains;
use thread_slots::told::Told;

/// The stage past the last one, in which main has ended, and another thread has not begun, or has ended. Main stays there; another
/// thread sets out at the first stage where it is told that it runs, with the argument that it is told.
pub fn take_end(
    wires: &mut Wires,
    registers: &Registers,
    chains: &mut Chains,
    code: &ThreadCode,
    is_main: bool,
    told: Told,
) -> Result<(), AllocError>
    ensures { OnOk result (EndsAt code.now registers.now is_main told wires.old.signals wires.new.signals chains.old chains.new) }
{
    let rest = code.stages.len() as u64;
    if is_main {
        return idle(wires, registers, chains, rest);
    }
    let idle = wires.not(1, told.runs)?;
    lead_unless(wires, registers, chains, rest, 0, idle)?;
    let Some(variable) = code.argument else {
        return Ok(());
    };
    let at = at_stage(wires, registers, rest)?;
    let variables = &mut chains.variables;
    set_next(wires, variables, variable as usize, 64, at, told.argument)
}
