// Stores into the memories of a module.

ghost use Rattle.std.specs.Prelude.{ℕ, length, OnOk};
ghost use Rattle.block_ir.specs.declared.block.Operation.TheVariants as operation;
ghost use Rattle.thread_slots.specs.Cells.{PutsWord, PutsOne, PutsFirst};
ghost use Rattle.thread_slots.specs.Stores.{AddsStores, PutsStore};
ghost use Rattle.operator_wires.specs.Gives.{Grows};

use block_datapath::operands::{Given, operand_word};
use block_datapath::operations::{address, start_of};
use block_datapath::registers::Registers;
use block_datapath::states::{Moment, in_state};
use block_ir::block::{Block, Operation};
use block_ir::code::{Array, ThreadCode};
use block_ir::operand::Operand;
use block_ir::plan::BlockPlan;
use operator_wires::wires::Wires;
use operator_wires::words::Word;
use sqlite_items::Items;
use std::alloc::AllocError;

/// A store into a memory, where the condition holds and the state is left.
#[derive(Clone, Copy)]
pub struct Store {
    pub memory: usize,
    pub condition: usize,
    pub address: usize,
    pub source: usize,
}

/// The writes of arrays in a block.
pub fn store_all(
    wires: &mut Wires,
    registers: &Registers,
    stores: &mut Items<Store>,
    code: &ThreadCode,
    block: &Block,
    plan: &BlockPlan,
    values: &[Given],
    end: Moment,
) -> Result<(), AllocError>
    ensures grows { OnOk result (Grows wires.old.signals wires.new.signals) }
    ensures puts { OnOk result (PutsFirst wires.old.signals wires.new.signals registers.now end.at end.states stores.old stores.new code.now values.now
        block.now.operations plan.now.starts (length block.now.operations)) }
    ensures wired { OnOk result (AddsStores wires.old.signals wires.new.signals code.now registers.now values.now end.at end.states stores.old stores.new) }
{
    for (number, operation) in block.operations.as_slice().iter().enumerate() {
        let start = start_of(plan, number);
        let moment = Moment {
            at: end.at,
            state: start,
            states: end.states,
        };
        store_one(wires, registers, stores, code, values, operation, moment)?;
    }
    Ok(())
}

/// A write of an array is made when its state is left.
fn store_one(
    wires: &mut Wires,
    registers: &Registers,
    stores: &mut Items<Store>,
    code: &ThreadCode,
    values: &[Given],
    operation: &Operation,
    moment: Moment,
) -> Result<(), AllocError>
    ensures grows { OnOk result (Grows wires.old.signals wires.new.signals) }
    ensures puts { OnOk result (PutsOne wires.old.signals wires.new.signals registers.now moment stores.old stores.new code.now values.now operation.now) }
    ensures wired { OnOk result (AddsStores wires.old.signals wires.new.signals code.now registers.now values.now moment.at moment.states stores.old stores.new) }
{
    match operation {
        Operation::WriteArray {
            array,
            index,
            value,
            ..
        } => write_array(
            wires,
            registers,
            stores,
            code,
            values,
            *array as usize,
            index,
            value,
            moment,
        ),
        _ => Ok(()),
    }
}

fn write_array(
    wires: &mut Wires,
    registers: &Registers,
    stores: &mut Items<Store>,
    code: &ThreadCode,
    values: &[Given],
    array: usize,
    index: &Operand,
    value: &Operand,
    moment: Moment,
) -> Result<(), AllocError>
    ensures grows { OnOk result (Grows wires.old.signals wires.new.signals) }
    ensures puts { OnOk result ((n : ℕ) → PutsOne wires.old.signals wires.new.signals registers.now moment stores.old stores.new code.now values.now
        (operation.WriteArray array n index.now value.now)) }
    ensures wired { OnOk result (AddsStores wires.old.signals wires.new.signals code.now registers.now values.now moment.at moment.states stores.old stores.new) }
{
    let types = code.variables.as_slice();
    let index = operand_word(wires, registers, types, values, index, moment.state)?;
    let value = operand_word(wires, registers, types, values, value, moment.state)?;
    match code.arrays.get(array) {
        Some(own) => put(wires, registers, stores, array, *own, index, value, moment),
        None => Ok(()),
    }
}

fn put(
    wires: &mut Wires,
    registers: &Registers,
    stores: &mut Items<Store>,
    memory: usize,
    array: Array,
    index: Word,
    value: Word,
    moment: Moment,
) -> Result<(), AllocError>
    ensures grows { OnOk result (Grows wires.old.signals wires.new.signals) }
    ensures puts { OnOk result (PutsWord wires.old.signals wires.new.signals registers.now moment stores.old stores.new memory array index value) }
    ensures wired { OnOk result (PutsStore wires.old.signals wires.new.signals registers.now memory array index value moment stores.old stores.new) }
{
    let condition = in_state(wires, registers, moment)?;
    let address = address(wires, index, array.length)?;
    let source = wires.converted(value, array.ty)?;
    stores.push(Store {
        memory,
        condition,
        address,
        source: source.place,
    })
}
