// Operands of operations as words.

ghost use Rattle.std.specs.Prelude.{◌≡◌, ℕ, false, slice_get, IfOk};
ghost use Rattle.thread_promise.specs.Types.{source_type, operand_type};
ghost use Rattle.operator_wires.specs.Words.{Makes};
ghost use Rattle.operator_wires.specs.Added.{LikeOne};
ghost use Rattle.block_datapath.specs.Wired.{IsSourced, AreConverted, IsVariableWord, IsValueWord, IsGivenWord, IsNarrow};
ghost use Rattle.block_datapath.specs.Seen.{kept_register, ShowsVariable, ShowsKept, ShowsGiven, ShowsValue, ShowsSource, ShowsOperand, Converts, Narrows};

use crate::registers::{Held, Registers};
use block_ir::operand::{Operand, Source};
use hls_ints::CType;
use operator_wires::wires::Wires;
use operator_wires::words::Word;
use sqlite_items::Items;
use std::alloc::AllocError;

/// The value of an operation: its wire in the operation's last state, and the register that keeps it later.
#[derive(Clone, Copy)]
pub struct Given {
    pub word: Word,
    pub last: u64,
    pub register: Option<u32>,
}

/// What an operand is in a state of its block.
pub fn operand_word(
    wires: &mut Wires,
    registers: &Registers,
    types: &[CType],
    values: &[Given],
    operand: &Operand,
    state: u64,
) -> Result<Word, AllocError>
    ensures shows { IfOk result (ShowsOperand wires.old.signals wires.new.signals registers.now types.now values.now state operand.now) }
    ensures wired { IfOk result (IsSourced wires.old.signals wires.new.signals types.now registers.now values.now (operand_type operand.now)) }
{
    let word = source_word(wires, registers, types, values, operand.source, state)?;
    all_converted(wires, word, operand.conversions.as_slice())
}

/// Wires for the conversions of a word, one behind the other.
pub fn all_converted(wires: &mut Wires, word: Word, types: &[CType]) -> Result<Word, AllocError>
    ensures shows { IfOk result (Converts wires.old.signals wires.new.signals word types.now) }
    ensures wired { IfOk result (AreConverted wires.old.signals wires.new.signals word types.now) }
{
    let mut out = word;
    for ty in types {
        out = wires.converted(out, *ty)?;
    }
    Ok(out)
}

fn source_word(
    wires: &mut Wires,
    registers: &Registers,
    types: &[CType],
    values: &[Given],
    source: Source,
    state: u64,
) -> Result<Word, AllocError>
    ensures shows { IfOk result (ShowsSource wires.old.signals wires.new.signals registers.now types.now values.now state source) }
    ensures wired { IfOk result (IsSourced wires.old.signals wires.new.signals types.now registers.now values.now (source_type source)) }
{
    match source {
        Source::Constant(ty, number) => wires.constant_word(ty, number),
        Source::Variable(number, ty) => variable_word(wires, registers, types, number as usize, ty),
        Source::Value(number, ty) => {
            value_word(wires, registers, values, number as usize, ty, state)
        }
    }
}

/// A variable, converted to a type. A number that is no variable's stands for 0.
pub fn variable_word(
    wires: &mut Wires,
    registers: &Registers,
    types: &[CType],
    number: usize,
    ty: CType,
) -> Result<Word, AllocError>
    ensures shows { IfOk result (ShowsVariable wires.old.signals wires.new.signals registers.now types.now number ty) }
    ensures wired { IfOk result (IsVariableWord wires.old.signals wires.new.signals types.now registers.now ty) }
{
    let Some(held) = held_at(registers.variables.as_slice(), number) else {
        return wires.constant_word(ty, 0);
    };
    let Some(own) = type_at(types, number) else {
        return wires.constant_word(ty, 0);
    };
    wires.converted(Word::of_type(held.register, own), ty)
}

/// The value of an operation, from its wire in its last state and later from its register, converted to a type.
fn value_word(
    wires: &mut Wires,
    registers: &Registers,
    values: &[Given],
    number: usize,
    ty: CType,
    state: u64,
) -> Result<Word, AllocError>
    ensures shows { IfOk result (ShowsValue wires.old.signals wires.new.signals registers.now values.now state number ty) }
    ensures wired { IfOk result (IsValueWord wires.old.signals wires.new.signals registers.now values.now ty) }
{
    let Some(given) = given_at(values, number) else {
        return wires.constant_word(ty, 0);
    };
    let word = given_word(wires, registers, given, state)?;
    wires.converted(word, ty)
}

fn given_word(
    wires: &mut Wires,
    registers: &Registers,
    given: Given,
    state: u64,
) -> Result<Word, AllocError>
    ensures shows { IfOk result (ShowsGiven wires.old.signals wires.new.signals registers.now given state) }
    ensures wired { IfOk result (IsGivenWord wires.old.signals wires.new.signals registers.now given) }
{
    if given.last == state {
        Ok(given.word)
    } else {
        kept_word(wires, registers, given)
    }
}

/// The value that a register keeps, in its low bits.
fn kept_word(wires: &mut Wires, registers: &Registers, given: Given) -> Result<Word, AllocError>
    ensures shows { IfOk result (ShowsKept wires.old.signals wires.new.signals registers.now given) }
    ensures wired { IfOk result (IsGivenWord wires.old.signals wires.new.signals registers.now given) }
{
    match kept_in(registers, given.register) {
        Some(held) => narrowed(wires, held, given.word),
        None => zero_like(wires, given.word),
    }
}

fn narrowed(wires: &mut Wires, held: Held, word: Word) -> Result<Word, AllocError>
    ensures shows { IfOk result (Narrows wires.old.signals wires.new.signals held word) }
    ensures wired { IfOk result (IsNarrow wires.old.signals wires.new.signals held word) }
{
    let place = wires.resized(held.register, held.width, word.width, false)?;
    Ok(Word {
        place,
        width: word.width,
        signed: word.signed,
    })
}

fn zero_like(wires: &mut Wires, word: Word) -> Result<Word, AllocError>
    ensures shows { IfOk result (Makes wires.old.signals wires.new.signals word.width word.signed (λ m r. 0)) }
    ensures wired { IfOk result (LikeOne wires.old.signals wires.new.signals word) }
{
    let place = wires.constant(word.width, 0)?;
    Ok(Word {
        place,
        width: word.width,
        signed: word.signed,
    })
}

/// The register of that number, if there is one.
pub fn kept_in(registers: &Registers, number: Option<u32>) -> Option<Held>
    ensures { result ≡ kept_register registers.now.kept number }
{
    match number {
        Some(number) => held_at(registers.kept.as_slice(), number as usize),
        None => None,
    }
}

/// The register with this number, if there is one.
pub fn held_at(registers: &[Held], number: usize) -> Option<Held>
    ensures { result ≡ slice_get registers.now number }
{
    registers.get(number).copied()
}

/// The type with this number, if there is one.
pub fn type_at(types: &[CType], number: usize) -> Option<CType>
    ensures { result ≡ slice_get types.now number }
{
    types.get(number).copied()
}

fn given_at(values: &[Given], number: usize) -> Option<Given>
    ensures { result ≡ slice_get values.now number }
{
    values.get(number).copied()
}
