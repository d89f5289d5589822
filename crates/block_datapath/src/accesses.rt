// What the accesses of globals in a block ask of banks, in wires that read registers alone.

ghost use Rattle.std.specs.Prelude.{◌≡◌, ℕ, ◌<◌, length, slice_get, Some, IfOk, OnOk};
ghost use Rattle.hls_ints.specs.Residues.{bit_of};
ghost use Rattle.block_ir.specs.declared.block.Operation.TheVariants as operation;
ghost use Rattle.block_datapath.specs.Accesses.{
  AddsRegistered,
  AreRegistered,
  IsZero,
  AreZeros,
  AsksIndex,
  AsksOperation,
  AsksFirst,
  AreIndexLinks,
  AreAccessLinks,
  AsksBlock,
  IsAskingBlock,
};

use crate::leaving_block::end_of;
use crate::operands::{Given, operand_word};
use crate::operations::{global_type, register_of, start_of, value_type};
use crate::registers::Registers;
use crate::requests::{BankAccess, BankRequests, ask_bank, bank_address, bank_bits};
use crate::states::{Moment, at_stage, in_state};
use crate::timing::further_states;
use bank_partition::banks::Spread;
use block_ir::block::{Block, Operation};
use block_ir::code::ThreadCode;
use block_ir::operand::Operand;
use block_ir::plan::BlockPlan;
use hls_ints::CType;
use operator_wires::wires::Wires;
use operator_wires::words::Word;
use sqlite_items::Items;
use std::alloc::AllocError;

/// The values of the operations of a block as registers keep them, from the state behind an operation's last one on. In
/// the last one itself, where no register has the value yet, a zero stands for it.
pub fn registered_values(
    wires: &mut Wires,
    code: &ThreadCode,
    globals: &[CType],
    block: &Block,
    plan: &BlockPlan,
) -> Result<Items<Given>, AllocError>
    ensures values { IfOk result (AreRegistered globals.now code.now plan.now block.now wires.old.signals wires.new.signals (length block.now.operations)) }
    ensures wired { IfOk result (AreZeros wires.old.signals wires.new.signals) }
{
    let mut values = Items::new(wires.alloc);
    let operations = block.operations.as_slice();
    for operation in operations {
        let number = values.len();
        let given = registered_value(wires, code, globals, plan, number, operation)?;
        values.push(given)?;
    }
    Ok(values)
}

fn registered_value(
    wires: &mut Wires,
    code: &ThreadCode,
    globals: &[CType],
    plan: &BlockPlan,
    number: usize,
    operation: &Operation,
) -> Result<Given, AllocError>
    ensures value { IfOk result (AddsRegistered globals.now code.now plan.now wires.old.signals wires.new.signals number operation.now) }
    ensures wired { IfOk result (IsZero wires.old.signals wires.new.signals) }
{
    let start = start_of(plan, number);
    let last = start.saturating_add(further_states(operation));
    let ty = value_type(operation, code, globals);
    let zero = wires.constant_word(ty, 0)?;
    let register = register_of(plan, number);
    Ok(Given {
        word: Word::of_type(zero.place, ty),
        last,
        register,
    })
}

/// What the accesses of globals in a block ask, each in the state in which it starts.
pub fn ask_all(
    wires: &mut Wires,
    registers: &Registers,
    chains: &mut BankRequests,
    code: &ThreadCode,
    globals: &[CType],
    spreads: &[Spread],
    block: &Block,
    plan: &BlockPlan,
    values: &[Given],
    end: Moment,
) -> Result<(), AllocError>
    ensures shows { OnOk result (AsksFirst wires.old.signals wires.new.signals registers.now code.now.variables values.now chains.old chains.new globals.now spreads.now
        block.now plan.now end (length block.now.operations)) }
    ensures wired { OnOk result (AreAccessLinks wires.old.signals wires.new.signals registers.now code.now.variables values.now chains.old chains.new globals.now spreads.now end) }
{
    for (number, operation) in block.operations.as_slice().iter().enumerate() {
        let moment = Moment {
            at: end.at,
            state: start_of(plan, number),
            states: end.states,
        };
        ask_operation(
            wires, registers, chains, code, globals, spreads, values, moment, operation,
        )?;
    }
    Ok(())
}

/// What an operation asks in the state in which it starts: nothing, if it is no access of a global.
fn ask_operation(
    wires: &mut Wires,
    registers: &Registers,
    chains: &mut BankRequests,
    code: &ThreadCode,
    globals: &[CType],
    spreads: &[Spread],
    values: &[Given],
    moment: Moment,
    operation: &Operation,
) -> Result<(), AllocError>
    ensures shows { OnOk result (AsksOperation wires.old.signals wires.new.signals registers.now code.now.variables values.now chains.old chains.new globals.now spreads.now
        moment operation.now) }
    ensures wired { OnOk result (AreAccessLinks wires.old.signals wires.new.signals registers.now code.now.variables values.now chains.old chains.new globals.now spreads.now moment) }
{
    match operation {
        Operation::ReadGlobal { global, index, .. } => {
            ask_read(
                wires,
                registers,
                chains,
                code,
                globals,
                spreads,
                values,
                moment,
                *global as usize,
                index,
            )
        }
        Operation::WriteGlobal {
            global,
            index,
            value,
            ..
        } => ask_write(
            wires,
            registers,
            chains,
            code,
            globals,
            spreads,
            values,
            moment,
            *global as usize,
            index,
            value,
        ),
        _ => Ok(()),
    }
}

fn ask_read(
    wires: &mut Wires,
    registers: &Registers,
    chains: &mut BankRequests,
    code: &ThreadCode,
    globals: &[CType],
    spreads: &[Spread],
    values: &[Given],
    moment: Moment,
    global: usize,
    index: &Operand,
) -> Result<(), AllocError>
    ensures shows { OnOk result ((n : ℕ) → AsksOperation wires.old.signals wires.new.signals registers.now code.now.variables values.now chains.old chains.new globals.now spreads.now
        moment (operation.ReadGlobal global n index.now)) }
    ensures wired { OnOk result (AreAccessLinks wires.old.signals wires.new.signals registers.now code.now.variables values.now chains.old chains.new globals.now spreads.now moment) }
{
    let ty = global_type(globals, global);
    let spread = spread_at(spreads, global);
    let zero = wires.constant_word(ty, 0)?;
    ask_spread(
        wires, registers, chains, code, values, moment, spread, index, false, zero,
    )
}

fn ask_write(
    wires: &mut Wires,
    registers: &Registers,
    chains: &mut BankRequests,
    code: &ThreadCode,
    globals: &[CType],
    spreads: &[Spread],
    values: &[Given],
    moment: Moment,
    global: usize,
    index: &Operand,
    value: &Operand,
) -> Result<(), AllocError>
    ensures shows { OnOk result ((n : ℕ) → AsksOperation wires.old.signals wires.new.signals registers.now code.now.variables values.now chains.old chains.new globals.now spreads.now
        moment (operation.WriteGlobal global n index.now value.now)) }
    ensures wired { OnOk result (AreAccessLinks wires.old.signals wires.new.signals registers.now code.now.variables values.now chains.old chains.new globals.now spreads.now moment) }
{
    let ty = global_type(globals, global);
    let spread = spread_at(spreads, global);
    let types = code.variables.as_slice();
    let word = operand_word(wires, registers, types, values, value, moment.state)?;
    let own = wires.converted(word, ty)?;
    ask_spread(
        wires, registers, chains, code, values, moment, spread, index, true, own,
    )
}

/// Where the banks of a global stand. A number that is no global's has none.
pub fn spread_at(spreads: &[Spread], global: usize) -> Option<Spread>
    ensures { result ≡ slice_get spreads.now global }
{
    spreads.get(global).copied()
}

fn ask_spread(
    wires: &mut Wires,
    registers: &Registers,
    chains: &mut BankRequests,
    code: &ThreadCode,
    values: &[Given],
    moment: Moment,
    spread: Option<Spread>,
    index: &Operand,
    writes: bool,
    value: Word,
) -> Result<(), AllocError>
    ensures shows { OnOk result (AsksIndex wires.old.signals wires.new.signals registers.now code.now.variables values.now chains.old chains.new moment spread index.now writes value) }
    ensures wired { OnOk result (AreIndexLinks wires.old.signals wires.new.signals registers.now code.now.variables values.now chains.old chains.new moment spread value) }
{
    match spread {
        Some(spread) => ask_index(
            wires, registers, chains, code, values, moment, spread, index, writes, value,
        ),
        None => Ok(()),
    }
}

/// The bank of an index is asked, which is taken as a number of 64 bits.
fn ask_index(
    wires: &mut Wires,
    registers: &Registers,
    chains: &mut BankRequests,
    code: &ThreadCode,
    values: &[Given],
    moment: Moment,
    spread: Spread,
    index: &Operand,
    writes: bool,
    value: Word,
) -> Result<(), AllocError>
    ensures shows { OnOk result (AsksIndex wires.old.signals wires.new.signals registers.now code.now.variables values.now chains.old chains.new moment
        (Some spread) index.now writes value) }
    ensures wired { OnOk result (AreIndexLinks wires.old.signals wires.new.signals registers.now code.now.variables values.now chains.old chains.new moment (Some spread) value) }
{
    let types = code.variables.as_slice();
    let state = in_state(wires, registers, moment)?;
    let word = operand_word(wires, registers, types, values, index, moment.state)?;
    let wide = wires.converted(word, CType::LONG)?;
    let bits = bank_bits(spread.count);
    let address = bank_address(wires, wide.place, bits)?;
    let number = bit(writes);
    let flag = wires.constant(1, number)?;
    let access = BankAccess {
        state,
        writes: flag,
        address,
        value: value.place,
    };
    ask_bank(wires, chains, spread, value.width, wide.place, access)
}

fn bit(flag: bool) -> u64
    ensures value { result ≡ bit_of flag }
    ensures small { result < 2 }
{
    if flag { 1 } else { 0 }
}

/// What a block at a stage asks of banks: each of its accesses of globals in the state in which it starts.
pub fn ask_block(
    wires: &mut Wires,
    registers: &Registers,
    chains: &mut BankRequests,
    code: &ThreadCode,
    globals: &[CType],
    spreads: &[Spread],
    stage: u64,
    block: &Block,
    plan: &BlockPlan,
) -> Result<(), AllocError>
    ensures shows { OnOk result (AsksBlock globals.now spreads.now code.now registers.now stage block.now plan.now wires.old.signals wires.new.signals chains.old chains.new) }
    ensures wired { OnOk result (IsAskingBlock globals.now spreads.now code.now registers.now stage block.now plan.now wires.old.signals wires.new.signals chains.old chains.new) }
{
    let at = at_stage(wires, registers, stage)?;
    let values = registered_values(wires, code, globals, block, plan)?;
    let given = values.as_slice();
    let end = end_of(at, plan);
    ask_all(
        wires, registers, chains, code, globals, spreads, block, plan, given, end,
    )
}
