// Operands of the operations of an iteration, in one phase of one round.

ghost use Rattle.std.specs.Prelude.{◌≡◌, slice_get, IfOk};
ghost use Rattle.std.specs.Option.{option_copied};
ghost use Rattle.thread_promise.specs.Types.{source_type, operand_type};
ghost use Rattle.loop_datapath.specs.Ahead.{last_final, final_behind, ShowsWire, ShowsRegister, ShowsLow, ShowsValueAhead, ShowsSourceAhead, ShowsOperandAhead, BecomesLeft};
ghost use Rattle.loop_datapath.specs.Wired.{IsWordAhead, IsValueAhead, IsWireWord, IsRegisterWord, IsLowWord, IsLeftWord};

use crate::times::{LoopTimes, RoundPhase, ValuePlace, value_place};
use block_datapath::operands::{all_converted, held_at, variable_word};
use block_datapath::registers::{Held, Registers};
use block_ir::block::{Block, Final};
use block_ir::operand::{Operand, Source};
use hls_ints::CType;
use operator_wires::wires::Wires;
use operator_wires::words::Word;
use std::alloc::AllocError;

/// What an operand is in the iteration that is `depth` behind the oldest one.
pub fn operand_ahead(
    wires: &mut Wires,
    registers: &Registers,
    types: &[CType],
    turn: &Block,
    times: &LoopTimes,
    words: &[Word],
    at: RoundPhase,
    depth: u32,
    operand: &Operand,
) -> Result<Word, AllocError>
    ensures shows { IfOk result (ShowsOperandAhead wires.old.signals wires.new.signals registers.now times.now words.now at depth types.now turn.now operand.now) }
    ensures wired { IfOk result (IsWordAhead wires.old.signals wires.new.signals types.now registers.now words.now (operand_type operand.now)) }
{
    let source = operand.source;
    let word = source_ahead(
        wires, registers, types, turn, times, words, at, depth, source,
    )?;
    all_converted(wires, word, operand.conversions.as_slice())
}

/// What an operand comes from: a constant, the value of an operation, or a variable as that iteration begins, which is what the
/// iteration before leaves there, and for the oldest one what its register holds.
fn source_ahead(
    wires: &mut Wires,
    registers: &Registers,
    types: &[CType],
    turn: &Block,
    times: &LoopTimes,
    words: &[Word],
    at: RoundPhase,
    depth: u32,
    source: Source,
) -> Result<Word, AllocError>
    ensures shows { IfOk result (ShowsSourceAhead wires.old.signals wires.new.signals registers.now times.now words.now at depth types.now turn.now source) }
    ensures wired { IfOk result (IsWordAhead wires.old.signals wires.new.signals types.now registers.now words.now (source_type source)) }
{
    match source {
        Source::Constant(ty, number) => wires.constant_word(ty, number),
        Source::Value(number, ty) => {
            let number = number as usize;
            value_ahead(wires, registers, times, words, at, depth, number, ty)
        }
        Source::Variable(number, ty) => match final_behind(turn, depth, number as usize) {
            None => variable_word(wires, registers, types, number as usize, ty),
            Some(last) => {
                let before = depth - 1;
                let made_of = last.value.source;
                let word = source_ahead(
                    wires, registers, types, turn, times, words, at, before, made_of,
                )?;
                left_word(wires, types, last, word, ty)
            }
        },
    }
}

/// What a final leaves in its variable, from the word of what it is made of, as a value of a type.
fn left_word(
    wires: &mut Wires,
    types: &[CType],
    last: &Final,
    word: Word,
    ty: CType,
) -> Result<Word, AllocError>
    ensures shows { IfOk result (BecomesLeft wires.old.signals wires.new.signals types.now last.now word ty) }
    ensures wired { IfOk result (IsLeftWord wires.old.signals wires.new.signals last.now word ty) }
{
    let whole = all_converted(wires, word, last.value.conversions.as_slice())?;
    wires.converted(whole, ty)
}

/// The value of an operation in that iteration, converted to a type: from its wire, or from a register.
fn value_ahead(
    wires: &mut Wires,
    registers: &Registers,
    times: &LoopTimes,
    words: &[Word],
    at: RoundPhase,
    depth: u32,
    number: usize,
    ty: CType,
) -> Result<Word, AllocError>
    ensures shows { IfOk result (ShowsValueAhead wires.old.signals wires.new.signals registers.now times.now words.now at depth number ty) }
    ensures wired { IfOk result (IsValueAhead wires.old.signals wires.new.signals registers.now words.now ty) }
{
    match value_place(times, at, depth, number) {
        ValuePlace::Wire => wire_word(wires, words, number, ty),
        ValuePlace::Register(register) => register_word(wires, registers, register, ty),
    }
}

/// The word of an operation, converted to a type. Of a number that is no operation's it is a 0.
fn wire_word(
    wires: &mut Wires,
    words: &[Word],
    number: usize,
    ty: CType,
) -> Result<Word, AllocError>
    ensures shows { IfOk result (ShowsWire wires.old.signals wires.new.signals words.now number ty) }
    ensures wired { IfOk result (IsWireWord wires.old.signals wires.new.signals words.now ty) }
{
    match word_at(words, number) {
        Some(word) => wires.converted(word, ty),
        None => wires.constant_word(ty, 0),
    }
}

/// The word with this number, if there is one.
pub fn word_at(words: &[Word], number: usize) -> Option<Word>
    ensures { result ≡ slice_get words.now number }
{
    words.get(number).copied()
}

/// The value of a type that a register for values keeps in its low bits. Of a number that is no register's it is a 0.
fn register_word(
    wires: &mut Wires,
    registers: &Registers,
    number: usize,
    ty: CType,
) -> Result<Word, AllocError>
    ensures shows { IfOk result (ShowsRegister wires.old.signals wires.new.signals registers.now number ty) }
    ensures wired { IfOk result (IsRegisterWord wires.old.signals wires.new.signals registers.now ty) }
{
    match held_at(registers.kept.as_slice(), number) {
        Some(held) => low_word(wires, held, ty),
        None => wires.constant_word(ty, 0),
    }
}

/// The low bits of a register, as a value of a type.
fn low_word(wires: &mut Wires, held: Held, ty: CType) -> Result<Word, AllocError>
    ensures shows { IfOk result (ShowsLow wires.old.signals wires.new.signals held ty) }
    ensures wired { IfOk result (IsLowWord wires.old.signals wires.new.signals held ty) }
{
    let place = wires.resized(held.register, held.width, u64::from(ty.bits()), false)?;
    Ok(Word::of_type(place, ty))
}

/// The type of the value of an operand.
pub fn operand_type(operand: &Operand) -> CType
    ensures { result ≡ operand_type operand.now }
{
    let mut ty = source_type(operand.source);
    for conversion in operand.conversions.as_slice() {
        ty = *conversion;
    }
    ty
}

fn source_type(source: Source) -> CType
    ensures { result ≡ source_type source }
{
    match source {
        Source::Constant(ty, _) => ty,
        Source::Variable(_, ty) => ty,
        Source::Value(_, ty) => ty,
    }
}

/// What the iteration before leaves in a variable, where there is one and it leaves something.
fn final_behind(turn: &Block, depth: u32, number: usize) -> Option<&Final>
    ensures { option_copied result ≡ final_behind turn.now.finals depth number }
{
    if depth == 0 {
        return None;
    }
    last_final(turn.finals.as_slice(), number)
}

/// The last final of a variable.
pub fn last_final(finals: &[Final], number: usize) -> Option<&Final>
    ensures { option_copied result ≡ last_final finals.now number }
{
    let mut last = None;
    for one in finals {
        if one.variable as usize == number {
            last = Some(one);
        }
    }
    last
}
