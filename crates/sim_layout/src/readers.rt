// The steps that read each word.

use crate::operands::operand_at;
use crate::waits::{Waits, no_waits, wait_for};
use netlist::netlist::Module;
use sim_values::settle::{Feed, Step};
use std::alloc::{AllocError, Global};

/// A step reads what its feed does.
fn push_reads(
    readers: &mut Waits,
    modules: &[Module],
    number: usize,
    feed: Feed,
) -> Result<(), AllocError> {
    for index in 0..usize::MAX {
        match operand_at(modules, feed, index) {
            Some(word) => wait_for(readers, number, word)?,
            None => return Ok(()),
        }
    }
    Err(AllocError)
}

/// The steps that read each word, listed as steps that wait for it are. Nothing is claimed of them: they only say what is to be looked at.
pub fn readers(
    alloc: Global,
    modules: &[Module],
    wires: &[Step],
    words: usize,
) -> Result<Waits, AllocError> {
    let mut readers = no_waits(alloc, words)?;
    for number in 0..wires.len() {
        push_reads(&mut readers, modules, number, wires[number].feed)?;
    }
    Ok(readers)
}
