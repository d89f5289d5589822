// What the registers for values hold next.

ghost use Rattle.std.specs.Prelude.{◌≡◌, slice_get, length, Some, OnOk};
ghost use Rattle.block_datapath.specs.Wired.{KeepsLinks, GivenStands, ValuesStand};
ghost use Rattle.block_datapath.specs.Chains.{KeepsOne, KeepsFirst};

use crate::operands::{Given, held_at};
use crate::registers::{Held, Registers, set_next};
use crate::states::{Moment, in_state};
use operator_wires::wires::Wires;
use sqlite_items::Items;
use std::alloc::AllocError;

/// The register of each value gets it when the last state of its operation is left.
pub fn keep_all(
    wires: &mut Wires,
    registers: &Registers,
    nexts: &mut Items<usize>,
    values: &[Given],
    end: Moment,
) -> Result<(), AllocError>
    ensures shows { OnOk result (KeepsFirst wires.old.signals wires.new.signals registers.now end.at end.states nexts.old nexts.new values.now (length values.now)) }
    ensures wired { OnOk result (KeepsLinks wires.old.signals wires.new.signals registers.now end.at end.states nexts.old nexts.new (ValuesStand wires.old.signals values.now)) }
{
    for given in values {
        keep(wires, registers, nexts, *given, end)?;
    }
    Ok(())
}

fn keep(
    wires: &mut Wires,
    registers: &Registers,
    nexts: &mut Items<usize>,
    given: Given,
    end: Moment,
) -> Result<(), AllocError>
    ensures shows { OnOk result (KeepsOne wires.old.signals wires.new.signals registers.now end.at end.states nexts.old nexts.new given) }
    ensures wired { OnOk result (KeepsLinks wires.old.signals wires.new.signals registers.now end.at end.states nexts.old nexts.new (GivenStands wires.old.signals given)) }
{
    match given.register {
        Some(number) => keep_at(wires, registers, nexts, given, number as usize, end),
        None => Ok(()),
    }
}

fn keep_at(
    wires: &mut Wires,
    registers: &Registers,
    nexts: &mut Items<usize>,
    given: Given,
    number: usize,
    end: Moment,
) -> Result<(), AllocError>
    requires { given.register ≡ Some number }
    ensures shows { OnOk result (KeepsOne wires.old.signals wires.new.signals registers.now end.at end.states nexts.old nexts.new given) }
    ensures wired { OnOk result (KeepsLinks wires.old.signals wires.new.signals registers.now end.at end.states nexts.old nexts.new (GivenStands wires.old.signals given)) }
{
    match held_at(registers.kept.as_slice(), number) {
        Some(held) => keep_in(wires, registers, nexts, given, number, held, end),
        None => Ok(()),
    }
}

fn keep_in(
    wires: &mut Wires,
    registers: &Registers,
    nexts: &mut Items<usize>,
    given: Given,
    number: usize,
    held: Held,
    end: Moment,
) -> Result<(), AllocError>
    requires register { given.register ≡ Some number }
    requires held { slice_get registers.now.kept number ≡ Some held }
    ensures shows { OnOk result (KeepsOne wires.old.signals wires.new.signals registers.now end.at end.states nexts.old nexts.new given) }
    ensures wired { OnOk result (KeepsLinks wires.old.signals wires.new.signals registers.now end.at end.states nexts.old nexts.new (GivenStands wires.old.signals given)) }
{
    let moment = Moment {
        at: end.at,
        state: given.last,
        states: end.states,
    };
    let condition = in_state(wires, registers, moment)?;
    let source = wires.resized(given.word.place, given.word.width, held.width, false)?;
    set_next(wires, nexts, number, held.width, condition, source)
}
