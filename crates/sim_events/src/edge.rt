// The clock edge in rows: all read the numbers before it, and of several to one place the last prevails.

ghost use Rattle.std.specs.Prelude.{◌≡◌, ◌++◌, ◌<◌, ◌^◌, true, length, slice_get, IfOk, OnOk};
ghost use Rattle.sim_events.specs.Edges.{when_rows, action_rows as action_rows_of, effect_row as effect_row_of, actions_rows, part_rows, edge_rows as edge_rows_of, holds_after, set_after, stored_after, sets, stores};

use crate::operation::place;
use netlist::netlist::{Action, Effect, Module};
use sim_values::edge::{Part, set_word_at};
use sim_values::settle::set_item;
use sim_values::value::{Spot, item_at, memory_size, number_at};
use sqlite_items::at;
use std::alloc::{AllocError, Global};

/// A row of an action: its conditions stand before its effect.
#[derive(Clone, Copy)]
pub enum EdgeRow {
    /// The effect behind this row acts only where the word at the place is not 0.
    When(usize),
    /// A register gets the word at a place.
    Set {
        register: usize,
        source: usize,
    },
    /// A word of the memory that starts at word `start` of all memories and has `size` words gets the word at a place.
    Store {
        start: u64,
        size: u64,
        address: usize,
        source: usize,
    },
    /// An effect that changes no word.
    Nothing,
}

fn effect_row(module: &Module, spot: Spot, starts: &[u64], effect: &Effect) -> EdgeRow
    ensures { result ≡ effect_row_of module.now spot starts.now effect.now }
{
    match effect {
        Effect::Set { register, source } => EdgeRow::Set {
            register: place(spot.base, *register),
            source: place(spot.base, *source),
        },
        Effect::Store {
            memory,
            address,
            source,
        } => EdgeRow::Store {
            start: number_at(starts, spot.memories, *memory),
            size: memory_size(module, *memory),
            address: place(spot.base, *address),
            source: place(spot.base, *source),
        },
        Effect::Write { .. } => EdgeRow::Nothing,
    }
}

fn push_conditions(
    rows: &mut Vec<EdgeRow>,
    base: usize,
    conditions: &[usize],
) -> Result<(), AllocError>
    ensures { OnOk result (rows.new.items ≡ rows.old.items ++ when_rows base conditions.now) }
{
    for condition in conditions {
        rows.push(EdgeRow::When(place(base, *condition)))?;
    }
    Ok(())
}

fn push_action(
    rows: &mut Vec<EdgeRow>,
    module: &Module,
    spot: Spot,
    starts: &[u64],
    action: &Action,
) -> Result<(), AllocError>
    ensures { OnOk result (rows.new.items ≡ rows.old.items ++ action_rows_of module.now spot starts.now action.now) }
{
    push_conditions(rows, spot.base, action.conditions.as_slice())?;
    rows.push(effect_row(module, spot, starts, &action.effect))?;
    Ok(())
}

fn push_actions(
    rows: &mut Vec<EdgeRow>,
    module: &Module,
    spot: Spot,
    starts: &[u64],
) -> Result<(), AllocError>
    ensures { OnOk result (rows.new.items ≡ rows.old.items ++ actions_rows module.now spot starts.now module.now.actions) }
{
    for action in module.actions.as_slice() {
        push_action(rows, module, spot, starts, action)?;
    }
    Ok(())
}

fn push_part(
    rows: &mut Vec<EdgeRow>,
    modules: &[Module],
    starts: &[u64],
    part: Part,
) -> Result<(), AllocError>
    ensures { OnOk result (rows.new.items ≡ rows.old.items ++ part_rows starts.now part (slice_get modules.now part.module)) }
{
    match at(modules, part.module) {
        Some(module) => push_actions(rows, module, part.spot, starts),
        None => Ok(()),
    }
}

/// The rows of all instances of a net whose memories start at these words.
pub fn edge_rows(
    alloc: Global,
    modules: &[Module],
    starts: &[u64],
    parts: &[Part],
) -> Result<Vec<EdgeRow>, AllocError>
    ensures { IfOk result (λ rows. rows.items ≡ edge_rows_of modules.now starts.now parts.now) }
{
    let mut rows = Vec::new(alloc);
    for part in parts {
        push_part(&mut rows, modules, starts, *part)?;
    }
    Ok(rows)
}

/// Whether the conditions so far hold behind a row.
fn holds_behind(numbers: &[u64], on: bool, row: &EdgeRow) -> bool
    ensures { result ≡ holds_after numbers.now on row.now }
{
    match row {
        EdgeRow::When(of) => on && 0 < item_at(numbers, *of),
        EdgeRow::Set { .. } | EdgeRow::Store { .. } | EdgeRow::Nothing => true,
    }
}

/// What the effect of a row does.
fn act(numbers: &[u64], on: bool, row: &EdgeRow, next: &mut [u64], words: &mut [u64])
    ensures next { next.new ≡ set_after numbers.now on next.old row.now }
    ensures words { words.new ≡ stored_after numbers.now on words.old row.now }
{
    if !on {
        return;
    }
    match row {
        EdgeRow::When(_) | EdgeRow::Nothing => {}
        EdgeRow::Set { register, source } => {
            set_item(next, *register, item_at(numbers, *source));
        }
        EdgeRow::Store {
            start,
            size,
            address,
            source,
        } => {
            let number = item_at(numbers, *address);
            if number < *size {
                set_word_at(words, *start, number, item_at(numbers, *source));
            }
        }
    }
}

/// What the rows do to the next numbers and to the words of memories.
fn act_all(numbers: &[u64], rows: &[EdgeRow], next: &mut [u64], words: &mut [u64])
    ensures next { next.new ≡ sets numbers.now true next.old rows.now }
    ensures words { words.new ≡ stores numbers.now true words.old rows.now }
{
    let mut on = true;
    for row in rows {
        act(numbers, on, row, next, words);
        on = holds_behind(numbers, on, row);
    }
}

/// What the rows of a net leave in settled words: the numbers in `next`, the words of memories where they stand.
pub fn pass_edge(rows: &[EdgeRow], numbers: &[u64], next: &mut [u64], words: &mut [u64])
    requires { length next.old ≡ length numbers.now }
    ensures next { next.new ≡ sets numbers.now true numbers.now rows.now }
    ensures words { words.new ≡ stores numbers.now true words.old rows.now }
    ensures room { length numbers.now < 2 ^ 64 }
{
    let _ = numbers.len();
    next.copy_from_slice(numbers);
    act_all(numbers, rows, next, words);
}
