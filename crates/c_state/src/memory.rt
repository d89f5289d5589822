// What a step changes in memory.
ghost use Rattle.std.specs.Prelude.{◌≡◌, length, replicate, slice_set, None};
ghost use Rattle.thread_semantics.specs.Memory.{with_element};
ghost use Rattle.thread_semantics.specs.Move.{without_values, keep_in};
ghost use Rattle.thread_semantics.specs.Step.{written_to};
ghost use Rattle.c_evaluation.specs.Outcome.{rows_of};
ghost use Rattle.c_state.specs.Change.{kept_long, changed_locals, change_write};

use crate::place::Assignment;
use c_program::tree::Storage;
use hls_ints::{CType, wrap};

/// What a step changes in memory.
#[derive(Drop)]
pub enum Change {
    Nothing,
    /// A value is stored, converted to the type of its target.
    Stored(Assignment),
    /// No element of the local of that number is written any more.
    Blanked(u32),
    /// A value is kept in the local of that number.
    Kept(u32, i128),
}

/// Writes an element of a row, where there is one.
fn put_element<T: Copy + Drop>(row: &mut Vec<T>, index: usize, v: T)
    ensures { row.new.items ≡ slice_set row.old.items index v }
{
    if index < row.len() {
        row[index] = v;
    }
}

/// Writes an element of a local, where there is one.
fn put_local(rows: &mut Vec<Vec<Option<i128>>>, x: usize, index: usize, v: Option<i128>)
    ensures { rows_of rows.new.items ≡ with_element (rows_of rows.old.items) x index v }
{
    if x < rows.len() {
        put_element(&mut rows[x], index, v);
    }
}

/// Writes an element of a global, where there is one.
fn put_global(rows: &mut Vec<Vec<i128>>, x: usize, index: usize, v: i128)
    ensures { rows_of rows.new.items ≡ with_element (rows_of rows.old.items) x index v }
{
    if x < rows.len() {
        put_element(&mut rows[x], index, v);
    }
}

fn blank_row(row: &mut Vec<Option<i128>>)
    ensures { row.new.items ≡ replicate (length row.old.items) None }
{
    row.fill(None);
}

/// No element of a local is written any more.
fn blank(rows: &mut Vec<Vec<Option<i128>>>, x: usize)
    ensures { rows_of rows.new.items ≡ without_values (rows_of rows.old.items) x }
{
    if x < rows.len() {
        blank_row(&mut rows[x]);
    }
}

/// A value of 64 bits or fewer, if there is one, in a local that is declared nowhere, as a long.
fn kept_long(value: Option<i128>) -> Option<i128>
    ensures { result ≡ kept_long value }
{
    match value {
        None => None,
        Some(v) => Some(wrap(CType::LONG, v)),
    }
}

/// The value of a call, if it gives one, goes to the local that keeps it, if one does.
#[tactic(auto, using(crate::proofs::Rows::kept_is))]
pub fn keep(into: Option<u32>, value: Option<i128>, locals: &mut Vec<Vec<Option<i128>>>)
    ensures { rows_of locals.new.items ≡ keep_in into value (rows_of locals.old.items) }
{
    if let Some(slot) = into {
        put_local(locals, slot as usize, 0, kept_long(value));
    }
}

/// Carries out a change.
pub fn carry_out(change: &Change, locals: &mut Vec<Vec<Option<i128>>>, globals: &mut Vec<Vec<i128>>)
    ensures locals { rows_of locals.new.items ≡ changed_locals change.now (rows_of locals.old.items) }
    ensures globals { rows_of globals.new.items ≡ written_to (rows_of globals.old.items) (change_write change.now) }
{
    match change {
        Change::Nothing => {}
        Change::Stored(stored) => {
            let v = wrap(stored.target.ty, stored.value);
            let x = stored.target.variable as usize;
            let index = stored.target.index as usize;
            match stored.target.storage {
                Storage::Automatic => put_local(locals, x, index, Some(v)),
                Storage::Static => put_global(globals, x, index, v),
            }
        }
        Change::Blanked(x) => blank(locals, *x as usize),
        Change::Kept(slot, v) => keep(Some(*slot), Some(*v), locals),
    }
}
