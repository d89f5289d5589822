// Operands of operations as registers hold them.

ghost use Rattle.std.specs.Prelude.{IfOk};
ghost use Rattle.unit_datapath.specs.Words.{ShowsLow, ShowsRegister, ShowsSource, ShowsUnitWord};

use block_datapath::operands::{all_converted, kept_in, variable_word};
use block_datapath::operations::register_of;
use block_datapath::registers::{Held, Registers};
use block_ir::operand::{Operand, Source};
use block_ir::plan::BlockPlan;
use hls_ints::CType;
use operator_wires::wires::Wires;
use operator_wires::words::Word;
use std::alloc::AllocError;

/// An operand as registers hold it, converted to the type in which a unit works.
pub fn unit_word(
    wires: &mut Wires,
    registers: &Registers,
    types: &[CType],
    plan: &BlockPlan,
    ty: CType,
    operand: &Operand,
) -> Result<Word, AllocError>
    ensures { IfOk result (ShowsUnitWord wires.old.signals wires.new.signals registers.now types.now plan.now ty operand.now) }
{
    let source = source_word(wires, registers, types, plan, operand.source)?;
    let own = all_converted(wires, source, operand.conversions.as_slice())?;
    wires.converted(own, ty)
}

fn source_word(
    wires: &mut Wires,
    registers: &Registers,
    types: &[CType],
    plan: &BlockPlan,
    source: Source,
) -> Result<Word, AllocError>
    ensures { IfOk result (ShowsSource wires.old.signals wires.new.signals registers.now types.now plan.now source) }
{
    match source {
        Source::Constant(ty, number) => wires.constant_word(ty, number),
        Source::Variable(number, ty) => variable_word(wires, registers, types, number as usize, ty),
        Source::Value(number, ty) => {
            register_word(wires, registers, register_of(plan, number as usize), ty)
        }
    }
}

/// The value of a type that a register keeps, in its low bits.
fn register_word(
    wires: &mut Wires,
    registers: &Registers,
    register: Option<u32>,
    ty: CType,
) -> Result<Word, AllocError>
    ensures { IfOk result (ShowsRegister wires.old.signals wires.new.signals registers.now register ty) }
{
    match kept_in(registers, register) {
        Some(held) => low_word(wires, held, ty),
        None => wires.constant_word(ty, 0),
    }
}

fn low_word(wires: &mut Wires, held: Held, ty: CType) -> Result<Word, AllocError>
    ensures { IfOk result (ShowsLow wires.old.signals wires.new.signals held ty) }
{
    let width = u64::from(ty.bits());
    let place = wires.resized(held.register, held.width, width, false)?;
    Ok(Word::of_type(place, ty))
}
