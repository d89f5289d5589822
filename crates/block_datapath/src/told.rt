// Words that banks tell, taken in the state behind that of the request.

ghost use Rattle.std.specs.Prelude.{◌≡◌, ℕ, ◌+◌, ◌<◌, ◌≤◌, ◌^◌, slice_get, IfOk};
ghost use Rattle.hls_ints.specs.Types.{width_of};
ghost use Rattle.thread_promise.specs.Types.{or_int};
ghost use Rattle.block_ir.specs.declared.block.Operation.TheVariants as operation;
ghost use Rattle.block_datapath.specs.Wired.{IsOperationWord};
ghost use Rattle.block_datapath.specs.Operations.{ShowsOperation};
ghost use Rattle.block_datapath.specs.Told.{ShowsNumber, ChoosesWord, ChoosesSome, TakesWord, IsNumberWire, IsChosenWord};

use crate::accesses::spread_at;
use crate::operands::{Given, held_at, operand_word};
use crate::operations::global_type;
use crate::registers::Registers;
use crate::requests::{bank_bit, bank_bits};
use bank_partition::banks::Spread;
use block_ir::code::ThreadCode;
use block_ir::operand::Operand;
use hls_ints::CType;
use operator_wires::wires::Wires;
use operator_wires::words::Word;
use std::alloc::AllocError;

/// The word that the bank of an index tells, in the last state of a read.
pub fn told_value(
    wires: &mut Wires,
    registers: &Registers,
    code: &ThreadCode,
    globals: &[CType],
    values: &[Given],
    last: u64,
    global: usize,
    index: &Operand,
) -> Result<Word, AllocError>
    ensures shows { IfOk result (λ out. (unit start n : ℕ) → ShowsOperation wires.old.signals wires.new.signals globals.now code.now registers.now values.now unit start last
        (operation.ReadGlobal global n index.now) out) }
    ensures wired { IfOk result (IsOperationWord wires.old.signals wires.new.signals code.now registers.now values.now (or_int (slice_get globals.now global))) }
{
    let ty = global_type(globals, global);
    match spread_at(registers.spreads.as_slice(), global) {
        Some(spread) => spread_value(
            wires, registers, code, values, last, global, spread, ty, index,
        ),
        None => wires.constant_word(ty, 0),
    }
}

fn spread_value(
    wires: &mut Wires,
    registers: &Registers,
    code: &ThreadCode,
    values: &[Given],
    last: u64,
    global: usize,
    spread: Spread,
    ty: CType,
    index: &Operand,
) -> Result<Word, AllocError>
    requires { slice_get registers.now.spreads global ≡ Some spread }
    ensures shows { IfOk result (TakesWord wires.old.signals wires.new.signals registers.now code.now.variables values.now last spread ty index.now) }
    ensures wired { IfOk result (IsOperationWord wires.old.signals wires.new.signals code.now registers.now values.now ty) }
{
    let types = code.variables.as_slice();
    let word = operand_word(wires, registers, types, values, index, last)?;
    let wide = wires.converted(word, CType::LONG)?;
    let width = u64::from(ty.bits());
    let place = chosen_word(wires, registers, spread, width, wide.place)?;
    Ok(Word::of_type(place, ty))
}

/// Of the words of a global's banks that of the bank which an index of 64 bits names. That of the first one is told wherever
/// the index names no other.
fn chosen_word(
    wires: &mut Wires,
    registers: &Registers,
    spread: Spread,
    width: u64,
    index: usize,
) -> Result<usize, AllocError>
    ensures shows { IfOk result (ChoosesWord wires.old.signals wires.new.signals registers.now spread width index) }
    ensures wired { IfOk result (IsChosenWord wires.old.signals wires.new.signals registers.now spread width index) }
{
    let bits = bank_bits(spread.count);
    let mut word = word_of_bank(wires, registers, bank_number(spread, 0), width)?;
    for number in 1..spread.count {
        let chosen = bank_bit(wires, index, bits, number)?;
        let told = word_of_bank(wires, registers, bank_number(spread, number), width)?;
        word = wires.choice(width, chosen, told, word)?;
    }
    Ok(word)
}

/// The number of a bank of a global among all banks, if it is one of 64 bits.
fn bank_number(spread: Spread, number: u64) -> usize
    ensures { spread.first + number < 2 ^ 64 → result ≡ spread.first + number }
{
    spread.first.saturating_add(number as usize)
}

/// The word that a bank tells, as wide as this.
fn word_of_bank(
    wires: &mut Wires,
    registers: &Registers,
    bank: usize,
    width: u64,
) -> Result<usize, AllocError>
    ensures shows { IfOk result (ShowsNumber wires.old.signals wires.new.signals registers.now bank width) }
    ensures wired { IfOk result (IsNumberWire wires.old.signals wires.new.signals registers.now width) }
{
    match held_at(registers.words.as_slice(), bank) {
        Some(held) => wires.resized(held.register, held.width, width, false),
        None => wires.constant(width, 0),
    }
}
