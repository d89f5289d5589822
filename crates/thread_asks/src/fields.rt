// What a request says: which object it names, its number, and its values.

ghost use Rattle.std.specs.Prelude.{◌+◌, ◌^◌, ◌<◌, length, IfOk, OnOk};
ghost use Rattle.thread_asks.specs.Fields.{ShowsActOperand, AsksValues, AsksValue, AsksNumber, NamesObject};

use block_datapath::operands::variable_word;
use block_datapath::registers::{Registers, set_next};
use block_ir::code::{ActOperand, ThreadCode};
use hls_ints::CType;
use operator_wires::wires::Wires;
use operator_wires::words::Word;
use sqlite_items::Items;
use std::alloc::AllocError;

/// Where a bit is set the first field is a number.
pub fn ask_number(
    wires: &mut Wires,
    fields: &mut Items<usize>,
    width: u64,
    at: usize,
    number: u32,
) -> Result<(), AllocError>
    ensures { OnOk result (AsksNumber wires.old.signals wires.new.signals at fields.old fields.new width number) }
{
    let whole = wires.constant(32, u64::from(number))?;
    let source = wires.resized(whole, 32, width, false)?;
    set_next(wires, fields, 0, width, at, source)
}

/// Where a bit is set this value says which object is asked, else what did before.
pub fn name_object(
    wires: &mut Wires,
    registers: &Registers,
    object: usize,
    code: &ThreadCode,
    at: usize,
    value: ActOperand,
) -> Result<usize, AllocError>
    ensures { IfOk result (NamesObject code.now registers.now wires.old.signals wires.new.signals at object value) }
{
    let word = act_word(wires, registers, code, value)?;
    let wide = wires.converted(word, CType::LONG)?;
    wires.choice(64, at, wide.place, object)
}

/// Where a bit is set the further fields are these values.
pub fn ask_values(
    wires: &mut Wires,
    registers: &Registers,
    fields: &mut Items<usize>,
    code: &ThreadCode,
    at: usize,
    values: &[ActOperand],
) -> Result<(), AllocError>
    ensures { OnOk result (AsksValues code.now registers.now wires.old.signals wires.new.signals at fields.old fields.new values.now (length values.now)) }
{
    for (number, value) in values.iter().enumerate() {
        ask_value(wires, registers, fields, code, at, number, *value)?;
    }
    Ok(())
}

/// A value is asked for as a number of 64 bits.
fn ask_value(
    wires: &mut Wires,
    registers: &Registers,
    fields: &mut Items<usize>,
    code: &ThreadCode,
    at: usize,
    number: usize,
    value: ActOperand,
) -> Result<(), AllocError>
    requires { number + 1 < 2 ^ 64 }
    ensures { OnOk result (AsksValue code.now registers.now wires.old.signals wires.new.signals at fields.old fields.new number value) }
{
    let word = act_word(wires, registers, code, value)?;
    let wide = wires.converted(word, CType::LONG)?;
    set_next(wires, fields, number + 1, 64, at, wide.place)
}

/// What an act works on.
fn act_word(
    wires: &mut Wires,
    registers: &Registers,
    code: &ThreadCode,
    operand: ActOperand,
) -> Result<Word, AllocError>
    ensures { IfOk result (ShowsActOperand code.now registers.now wires.old.signals wires.new.signals operand) }
{
    match operand {
        ActOperand::Constant(ty, number) => wires.constant_word(ty, number),
        ActOperand::Variable(number, ty) => variable_word(
            wires,
            registers,
            code.variables.as_slice(),
            number as usize,
            ty,
        ),
    }
}
