// Whether an operation is at work.

ghost use Rattle.std.specs.Prelude.{◌≡◌, ◌≤◌, IfOk};
ghost use Rattle.unit_datapath.specs.States.{TellsWork};

use block_datapath::registers::Registers;
use block_datapath::states::{Moment, in_state};
use operator_wires::wires::Wires;
use std::alloc::AllocError;

/// Whether the slot is at the stage of a moment, in a state from `start` to `further` ones after it.
pub fn at_work(
    wires: &mut Wires,
    registers: &Registers,
    end: Moment,
    start: u64,
    further: u64,
) -> Result<usize, AllocError>
    requires { further ≤ 7 }
    ensures { IfOk result (TellsWork wires.old.signals wires.new.signals registers.now end start further) }
{
    let mut place = in_state(wires, registers, moment_of(end, start))?;
    for offset in 0..further {
        let state = start.saturating_add(offset + 1);
        let here = in_state(wires, registers, moment_of(end, state))?;
        place = wires.either(place, here)?;
    }
    Ok(place)
}

fn moment_of(end: Moment, state: u64) -> Moment
    ensures { result ≡ record { at = end.at; state = state; states = end.states } }
{
    Moment {
        at: end.at,
        state,
        states: end.states,
    }
}
