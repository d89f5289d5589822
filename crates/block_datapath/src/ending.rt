// What the end of a block leaves: variables, and the stage that follows.

ghost use Rattle.std.specs.Prelude.{◌≡◌, slice_get, length, min, IfOk, OnOk};
ghost use Rattle.block_datapath.specs.Wired.{IsFinishAdded, AreFinishesAdded, IsOwnAdded, SetsLinks, IsTarget, IsStageNumber};
ghost use Rattle.operator_wires.specs.Gives.{Gives};
ghost use Rattle.block_datapath.specs.Ending.{BecomesOwn, ShowsFinal, ShowsFinals, ShowsNext, SetsFirst};
ghost use Rattle.block_ir.specs.declared.block.Next.TheVariants as next;

use crate::operands::{Given, operand_word, type_at};
use crate::registers::{Registers, set_next};
use block_ir::block::{Final, Next};
use block_ir::code::ThreadCode;
use block_ir::operand::Operand;
use hls_ints::CType;
use operator_wires::wires::Wires;
use operator_wires::words::Word;
use sqlite_items::Items;
use std::alloc::AllocError;

/// A variable, and the word of what it holds after the block.
#[derive(Clone, Copy)]
pub struct Finish {
    pub variable: usize,
    pub word: Word,
}

/// What variables hold after the block.
pub fn final_words(
    wires: &mut Wires,
    registers: &Registers,
    code: &ThreadCode,
    values: &[Given],
    finals: &[Final],
    state: u64,
) -> Result<Items<Finish>, AllocError>
    ensures shows { IfOk result (ShowsFinals registers.now code.now values.now state wires.old.signals wires.new.signals finals.now (length finals.now)) }
    ensures wired { IfOk result (AreFinishesAdded wires.old.signals wires.new.signals code.now registers.now values.now) }
{
    let mut finishes = Items::new(wires.alloc);
    for finish in finals {
        let word = final_word(wires, registers, code, values, finish, state)?;
        finishes.push(word)?;
    }
    Ok(finishes)
}

fn final_word(
    wires: &mut Wires,
    registers: &Registers,
    code: &ThreadCode,
    values: &[Given],
    finish: &Final,
    state: u64,
) -> Result<Finish, AllocError>
    ensures shows { IfOk result (ShowsFinal registers.now code.now values.now state wires.old.signals wires.new.signals finish.now) }
    ensures wired { IfOk result (λ f. IsFinishAdded wires.old.signals wires.new.signals code.now registers.now values.now f.variable f.word) }
{
    let types = code.variables.as_slice();
    let number = finish.variable as usize;
    let word = operand_word(wires, registers, types, values, &finish.value, state)?;
    let own = own_word(wires, types, number, word)?;
    Ok(Finish {
        variable: number,
        word: own,
    })
}

/// The word of a value of a variable's type, as wide as the variable.
fn own_word(
    wires: &mut Wires,
    types: &[CType],
    number: usize,
    word: Word,
) -> Result<Word, AllocError>
    ensures shows { IfOk result (BecomesOwn wires.old.signals wires.new.signals types.now number word) }
    ensures wired { IfOk result (IsOwnAdded wires.old.signals wires.new.signals types.now number word) }
{
    match type_at(types, number) {
        Some(own) => wires.converted(word, own),
        None => Ok(word),
    }
}

/// Where a bit is set variables get what they hold after the block.
pub fn set_finals(
    wires: &mut Wires,
    nexts: &mut Items<usize>,
    finishes: &[Finish],
    last: usize,
) -> Result<(), AllocError>
    ensures shows { OnOk result (SetsFirst wires.old.signals wires.new.signals last nexts.old nexts.new finishes.now (length finishes.now)) }
    ensures wired { OnOk result (SetsLinks wires.old.signals wires.new.signals last nexts.old nexts.new finishes.now) }
{
    for finish in finishes {
        set_next(
            wires,
            nexts,
            finish.variable,
            finish.word.width,
            last,
            finish.word.place,
        )?;
    }
    Ok(())
}

/// The number of the stage to which a block leads.
pub fn target(
    wires: &mut Wires,
    registers: &Registers,
    code: &ThreadCode,
    values: &[Given],
    next: &Next,
    state: u64,
) -> Result<usize, AllocError>
    ensures shows { IfOk result (ShowsNext registers.now code.now values.now state wires.old.signals wires.new.signals next.now) }
    ensures wired { IfOk result (IsTarget wires.old.signals wires.new.signals code.now registers.now values.now) }
{
    match next {
        Next::Jump(stage) => stage_number(wires, registers, code, *stage),
        Next::Branch {
            test,
            nonzero,
            zero,
        } => branch(wires, registers, code, values, test, *nonzero, *zero, state),
    }
}

fn branch(
    wires: &mut Wires,
    registers: &Registers,
    code: &ThreadCode,
    values: &[Given],
    test: &Operand,
    nonzero: usize,
    zero: usize,
    state: u64,
) -> Result<usize, AllocError>
    ensures shows { IfOk result (ShowsNext registers.now code.now values.now state wires.old.signals wires.new.signals (next.Branch test.now nonzero zero)) }
    ensures wired { IfOk result (IsTarget wires.old.signals wires.new.signals code.now registers.now values.now) }
{
    let types = code.variables.as_slice();
    let word = operand_word(wires, registers, types, values, test, state)?;
    let is_zero = wires.is_zero(word)?;
    let if_nonzero = stage_number(wires, registers, code, nonzero)?;
    let if_zero = stage_number(wires, registers, code, zero)?;
    wires.choice(registers.stage.width, is_zero, if_zero, if_nonzero)
}

/// The number of a stage. Past the last one there is one more.
pub fn stage_number(
    wires: &mut Wires,
    registers: &Registers,
    code: &ThreadCode,
    stage: usize,
) -> Result<usize, AllocError>
    ensures shows { IfOk result (λ place. Gives wires.old.signals wires.new.signals place registers.now.stage.width (λ m r. min stage (length code.now.stages))) }
    ensures wired { IfOk result (IsStageNumber wires.old.signals wires.new.signals code.now registers.now) }
{
    let number = stage.min(code.stages.len());
    wires.constant(registers.stage.width, number as u64)
}
