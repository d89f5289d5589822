// What the registers for values hold next in a loop.

ghost use Rattle.std.specs.Prelude.{length, max, OnOk, IfOk};
ghost use Rattle.loop_datapath.specs.Chains.{Copies, KeepsCopy, KeepsCopies, KeepsChains, KeepsBit, KeepsStages};
ghost use Rattle.loop_datapath.specs.Wired.{IsCopy, KeepsCopyLinks, KeepsChainLinks, KeepsBitLinks, KeepsStageLinks};

use crate::stage_bits::StageBits;
use crate::states::LoopStates;
use crate::times::{LoopTimes, OperationTime, time_at};
use block_datapath::operands::held_at;
use block_datapath::registers::{Registers, place_at, set_next};
use operator_wires::wires::Wires;
use operator_wires::words::Word;
use sqlite_items::Items;
use std::alloc::AllocError;

/// In the phase of each operation its value goes into the first register of its chain, and that of each register into the
/// next one.
pub fn keep_chains(
    wires: &mut Wires,
    registers: &Registers,
    nexts: &mut Items<usize>,
    times: &LoopTimes,
    words: &[Word],
    states: &LoopStates,
) -> Result<(), AllocError>
    ensures shows { OnOk result (KeepsChains wires.old.signals wires.new.signals registers.now times.now states.now nexts.old nexts.new words.now (length words.now)) }
    ensures wired { OnOk result (KeepsChainLinks wires.old.signals wires.new.signals registers.now words.now states.now nexts.old nexts.new) }
{
    for (number, word) in words.iter().enumerate() {
        let time = time_at(times, number);
        let here = states.phase(time.phase);
        let copies = times.stages.saturating_sub(time.stage);
        keep_copies(wires, registers, nexts, time.chain, *word, here, copies)?;
    }
    Ok(())
}

/// Where a bit is set a value goes into the first register of a chain, and that of each register into the next one.
fn keep_copies(
    wires: &mut Wires,
    registers: &Registers,
    nexts: &mut Items<usize>,
    chain: u32,
    word: Word,
    here: usize,
    copies: u32,
) -> Result<(), AllocError>
    ensures shows { OnOk result (KeepsCopies wires.old.signals wires.new.signals registers.now chain word here nexts.old nexts.new copies) }
    ensures wired { OnOk result (KeepsCopyLinks wires.old.signals wires.new.signals registers.now word here nexts.old nexts.new) }
{
    for copy in 0..copies {
        keep_copy(wires, registers, nexts, chain, word, here, copy)?;
    }
    Ok(())
}

/// A register of a chain gets what the one before it holds, and the first one the value.
fn keep_copy(
    wires: &mut Wires,
    registers: &Registers,
    nexts: &mut Items<usize>,
    chain: u32,
    word: Word,
    here: usize,
    copy: u32,
) -> Result<(), AllocError>
    ensures shows { OnOk result (KeepsCopy wires.old.signals wires.new.signals registers.now chain word here nexts.old nexts.new copy) }
    ensures wired { OnOk result (KeepsCopyLinks wires.old.signals wires.new.signals registers.now word here nexts.old nexts.new) }
{
    let number = chain as usize + copy as usize;
    let Some(held) = held_at(registers.kept.as_slice(), number) else {
        return Ok(());
    };
    let source = copied(wires, registers, chain, word, copy, held.width)?;
    set_next(wires, nexts, number, held.width, here, source)
}

/// What a register of a chain gets, as wide as that register.
fn copied(
    wires: &mut Wires,
    registers: &Registers,
    chain: u32,
    word: Word,
    copy: u32,
    width: u64,
) -> Result<usize, AllocError>
    ensures shows { IfOk result (Copies wires.old.signals wires.new.signals registers.now chain word copy width) }
    ensures wired { IfOk result (IsCopy wires.old.signals wires.new.signals registers.now word width) }
{
    if copy == 0 {
        return wires.resized(word.place, word.width, width, false);
    }
    let before = chain as usize + (copy - 1) as usize;
    match held_at(registers.kept.as_slice(), before) {
        Some(held) => wires.resized(held.register, held.width, width, false),
        None => wires.constant(width, 0),
    }
}

/// The register of the first stage tells whether its iteration runs, from its comparison on; at the end of a round that of each
/// other stage gets what is told of the stage before it.
pub fn keep_stages(
    wires: &mut Wires,
    registers: &Registers,
    nexts: &mut Items<usize>,
    times: &LoopTimes,
    comparison: u32,
    bits: &StageBits,
    states: &LoopStates,
) -> Result<(), AllocError>
    ensures shows { OnOk result (KeepsStages wires.old.signals wires.new.signals registers.now times.now comparison bits.now states.now nexts.old nexts.new
        (max 1 times.now.stages)) }
    ensures wired { OnOk result (KeepsStageLinks wires.old.signals wires.new.signals registers.now times.now bits.now states.now nexts.old nexts.new) }
{
    let inside = bits.inside.as_slice();
    let first = times.bits as usize;
    let compares = states.phase(time_at(times, comparison as usize).phase);
    let runs = place_at(inside, 0);
    keep_bit(wires, registers, nexts, first, compares, runs)?;
    let end = states.phase(times.interval.saturating_sub(1));
    for stage in 1..times.stages {
        let number = first + stage as usize;
        let before = place_at(inside, (stage - 1) as usize);
        keep_bit(wires, registers, nexts, number, end, before)?;
    }
    Ok(())
}

/// Where a condition holds a register for values gets a bit.
fn keep_bit(
    wires: &mut Wires,
    registers: &Registers,
    nexts: &mut Items<usize>,
    number: usize,
    condition: usize,
    bit: usize,
) -> Result<(), AllocError>
    ensures shows { OnOk result (KeepsBit wires.old.signals wires.new.signals registers.now nexts.old nexts.new number condition bit) }
    ensures wired { OnOk result (KeepsBitLinks wires.old.signals wires.new.signals registers.now nexts.old nexts.new condition bit) }
{
    let Some(held) = held_at(registers.kept.as_slice(), number) else {
        return Ok(());
    };
    let source = wires.resized(bit, 1, held.width, false)?;
    set_next(wires, nexts, number, held.width, condition, source)
}
