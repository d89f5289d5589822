// Settling again after changes.

ghost use Rattle.std.specs.Prelude.{◌≡◌, ℕ, ◌+◌, ◌*◌, ◌<◌, ◌≤◌, ◌^◌, false, List, length, slice_get, slice_index, slice_index_or, slice_set, replicate, true, IfOk, IsTrue};
ghost use Rattle.netlist.specs.declared.netlist.Module as net_module;
ghost use Rattle.sim_values.specs.declared.settle.Step as settle_step;
ghost use Rattle.sim_values.specs.Flat.{AreNarrow, settled};
ghost use Rattle.sim_values.specs.Order.{IsMarked};
ghost use Rattle.sim_layout.specs.Running.{choice_of};
ghost use Rattle.sim_events.specs.Operations.{AreRows};
ghost use Rattle.sim_events.specs.Events.{IsAmong, AreFlagged, AreOrdered, IsKeeping, IsSettling, flat_at, marked_from};

use crate::fanout::{Fanout, step_at};
use crate::operation::{Row, evaluate, row_at};
use netlist::netlist::Module;
use sim_values::settle::{Choice, Step};
use sim_values::value::{Now, item_at};
use sqlite_items::at;
use std::alloc::{AllocError, Global};

/// Which steps are to be taken again. A block of 16 steps is marked where one of them is.
pub struct Pending {
    pub steps: Vec<bool>,
    pub blocks: Vec<bool>,
}

// A drop that is written here is proved here; a derived one is proved again in each crate that drops the type.

impl Drop for Pending {
    fn drop(self) {
        let Pending {
            steps: _,
            blocks: _,
        } = self;
    }
}

fn place_at(places: &[usize], number: usize) -> usize
    ensures { result ≡ slice_index places.now number }
{
    match places.get(number) {
        Some(place) => *place,
        None => 0,
    }
}

/// Whether a number is marked.
pub(crate) fn is_marked(marks: &[bool], number: usize) -> bool
    ensures { result ≡ slice_index_or marks.now number false }
{
    if number < marks.len() {
        marks[number]
    } else {
        false
    }
}

/// Changes the mark of a number, where there is one.
pub(crate) fn set_mark(marks: &mut Vec<bool>, number: usize, mark: bool)
    ensures { marks.new.items ≡ slice_set marks.old.items number mark }
{
    if number < marks.len() {
        marks[number] = mark;
    }
}

/// Marks a step and its block.
fn mark_step(pending: &mut Pending, number: usize)
    requires { AreFlagged pending.old.steps.items pending.old.blocks.items }
    ensures steps { pending.new.steps.items ≡ slice_set pending.old.steps.items number true }
    ensures flagged { AreFlagged pending.new.steps.items pending.new.blocks.items }
{
    set_mark(&mut pending.steps, number, true);
    set_mark(&mut pending.blocks, number / 16, true);
}

/// Marks the step that a place of a list has, where it is of a number or behind.
fn mark_listed(listed: &[usize], place: usize, from: usize, pending: &mut Pending)
    requires { AreFlagged pending.old.steps.items pending.old.blocks.items }
    ensures steps { pending.new.steps.items ≡ marked_from from pending.old.steps.items (slice_get listed.now place) }
    ensures flagged { AreFlagged pending.new.steps.items pending.new.blocks.items }
{
    if let Some(number) = at(listed, place) {
        if from <= *number {
            mark_step(pending, *number);
        }
    }
}

/// The steps from a number on that read or give a word are pending from now on.
fn mark(fanout: &Fanout, word: usize, from: usize, pending: &mut Pending)
    requires room { word + 1 < 2 ^ 64 }
    requires flagged { AreFlagged pending.old.steps.items pending.old.blocks.items }
    ensures long { length pending.new.steps.items ≡ length pending.old.steps.items }
    ensures marked { (k : ℕ) → from ≤ k → k < length pending.old.steps.items → IsAmong fanout.now.starts.items fanout.now.steps.items word k → IsMarked pending.new.steps.items k }
    ensures keeps { (k : ℕ) → IsMarked pending.old.steps.items k → IsMarked pending.new.steps.items k }
    ensures before { (k : ℕ) → k < from → slice_index_or pending.new.steps.items k false ≡ slice_index_or pending.old.steps.items k false }
    ensures flagged { AreFlagged pending.new.steps.items pending.new.blocks.items }
{
    let first = place_at(fanout.starts.as_slice(), word);
    let end = place_at(fanout.starts.as_slice(), word + 1);
    for place in first..end {
        mark_listed(fanout.steps.as_slice(), place, from, pending);
    }
}

/// Each of so many steps is pending.
pub fn all_pending(alloc: Global, steps: usize) -> Result<Pending, AllocError>
    ensures steps { IfOk result (λ p. p.steps.items ≡ replicate steps true) }
    ensures flagged { IfOk result (λ p. AreFlagged p.steps.items p.blocks.items) }
{
    let blocks = vec![in alloc; true; steps / 16 + 1]?;
    let steps = vec![in alloc; true; steps]?;
    Ok(Pending { steps, blocks })
}

impl Pending {
    /// The same.
    pub fn copy(&self, alloc: Global) -> Result<Pending, AllocError>
        ensures steps { IfOk result (λ p. p.steps.items ≡ self.now.steps.items) }
        ensures blocks { IfOk result (λ p. p.blocks.items ≡ self.now.blocks.items) }
    {
        Ok(Pending {
            steps: self.steps.as_slice().to_vec(alloc)?,
            blocks: self.blocks.as_slice().to_vec(alloc)?,
        })
    }
}

/// Puts a number at a place, where there is one. The steps that read or give it are pending from now on.
pub fn put(fanout: &Fanout, numbers: &mut [u64], pending: &mut Pending, place: usize, number: u64)
    requires { AreFlagged pending.old.steps.items pending.old.blocks.items }
    ensures numbers { numbers.new ≡ slice_set numbers.old place number }
    ensures keeping { (modules : List net_module.Module) (steps : List settle_step.Step) → IsKeeping modules steps fanout.now.starts.items fanout.now.steps.items numbers.old pending.old.steps.items
        → IsKeeping modules steps fanout.now.starts.items fanout.now.steps.items numbers.new pending.new.steps.items }
    ensures flagged { AreFlagged pending.new.steps.items pending.new.blocks.items }
{
    if place < numbers.len() {
        numbers[place] = number;
        mark(fanout, place, 0, pending);
    }
}

/// Whether another number than this stands at a place.
pub(crate) fn is_other(numbers: &[u64], place: usize, number: u64) -> bool
    ensures { result ≡ false → slice_index numbers.now place ≡ number }
{
    item_at(numbers, place) != number
}

/// Takes other numbers over. The steps that read or give one that differs are pending from now on.
pub fn take_over(fanout: &Fanout, numbers: &mut [u64], pending: &mut Pending, next: &[u64])
    requires long { length next.now ≡ length numbers.old }
    requires flagged { AreFlagged pending.old.steps.items pending.old.blocks.items }
    ensures numbers { numbers.new ≡ next.now }
    ensures keeping { (modules : List net_module.Module) (steps : List settle_step.Step) → IsKeeping modules steps fanout.now.starts.items fanout.now.steps.items numbers.old pending.old.steps.items
        → IsKeeping modules steps fanout.now.starts.items fanout.now.steps.items numbers.new pending.new.steps.items }
    ensures flagged { AreFlagged pending.new.steps.items pending.new.blocks.items }
{
    for place in 0..next.len() {
        let number = item_at(next, place);
        if is_other(numbers, place, number) {
            put(fanout, numbers, pending, place, number);
        }
    }
}

/// Puts a number at a place, and tells whether it differs from the one before.
fn changes(numbers: &mut [u64], place: usize, number: u64) -> bool
    ensures changed { IsTrue result → numbers.new ≡ slice_set numbers.old place number }
    ensures room { IsTrue result → place + 1 < 2 ^ 64 }
    ensures stays { result ≡ false → numbers.new ≡ numbers.old }
    ensures same { result ≡ false → place < length numbers.old → slice_index numbers.old place ≡ number }
{
    if place < numbers.len() && numbers[place] != number {
        numbers[place] = number;
        return true;
    }
    false
}

/// Takes the step of a number: its word is what it gives, and the steps behind it that read this word are pending where it changed. A step that
/// hangs on the choice or on a memory stays pending.
fn take(
    modules: &[Module],
    steps: &[Step],
    rows: &[Row],
    choice: &Choice,
    numbers: &mut [u64],
    words: &[u64],
    starts: &[u64],
    fanout: &Fanout,
    pending: &mut Pending,
    number: usize,
)
    requires narrow { AreNarrow modules.now }
    requires rows { AreRows modules.now starts.now steps.now rows.now }
    requires ordered { AreOrdered modules.now steps.now (length numbers.old) }
    requires number { number < length steps.now }
    requires count { length pending.old.steps.items ≡ length steps.now }
    requires marked { IsMarked pending.old.steps.items number }
    requires flagged { AreFlagged pending.old.steps.items pending.old.blocks.items }
    ensures long { length numbers.new ≡ length numbers.old }
    ensures count { length pending.new.steps.items ≡ length steps.now }
    ensures settling { (first : List ℕ) → IsSettling modules.now steps.now (choice_of choice.now) words.now starts.now fanout.now.starts.items fanout.now.steps.items first number numbers.old pending.old.steps.items
        → IsSettling modules.now steps.now (choice_of choice.now) words.now starts.now fanout.now.starts.items fanout.now.steps.items first (number + 1) numbers.new pending.new.steps.items }
    ensures flagged { AreFlagged pending.new.steps.items pending.new.blocks.items }
{
    let _ = numbers.len();
    let row = row_at(rows, number);
    let now = Now {
        numbers: &*numbers,
        words,
        starts,
    };
    let feed = &step_at(steps, number).feed;
    let given = evaluate(modules, choice, &now, feed, &row.operation);
    set_mark(&mut pending.steps, number, row.moving);
    if changes(numbers, row.target, given) {
        mark(fanout, row.target, number + 1, pending);
    }
}

fn any_marked(marks: &[bool], first: usize) -> bool
    requires { first + 16 < 2 ^ 64 }
    ensures { result ≡ false → (k : ℕ) → first ≤ k → k < first + 16 → slice_index_or marks.now k false ≡ false }
{
    for number in first..first + 16 {
        if is_marked(marks, number) {
            return true;
        }
    }
    false
}

/// Takes the steps of a block that are pending. The block stays marked where one of them still is.
fn take_block(
    modules: &[Module],
    steps: &[Step],
    rows: &[Row],
    choice: &Choice,
    numbers: &mut [u64],
    words: &[u64],
    starts: &[u64],
    fanout: &Fanout,
    pending: &mut Pending,
    block: usize,
)
    requires narrow { AreNarrow modules.now }
    requires rows { AreRows modules.now starts.now steps.now rows.now }
    requires ordered { AreOrdered modules.now steps.now (length numbers.old) }
    requires count { length pending.old.steps.items ≡ length steps.now }
    requires room { block * 16 + 16 < 2 ^ 64 }
    requires flagged { AreFlagged pending.old.steps.items pending.old.blocks.items }
    ensures long { length numbers.new ≡ length numbers.old }
    ensures count { length pending.new.steps.items ≡ length steps.now }
    ensures settling { (first : List ℕ) → IsSettling modules.now steps.now (choice_of choice.now) words.now starts.now fanout.now.starts.items fanout.now.steps.items first (block * 16) numbers.old pending.old.steps.items
        → IsSettling modules.now steps.now (choice_of choice.now) words.now starts.now fanout.now.starts.items fanout.now.steps.items first (block * 16 + 16) numbers.new pending.new.steps.items }
    ensures flagged { AreFlagged pending.new.steps.items pending.new.blocks.items }
{
    let first = block * 16;
    for number in first..first + 16 {
        if is_marked(pending.steps.as_slice(), number) {
            take(
                modules, steps, rows, choice, numbers, words, starts, fanout, pending, number,
            );
        }
    }
    let left = any_marked(pending.steps.as_slice(), first);
    set_mark(&mut pending.blocks, block, left);
}

/// Gives each signal its number: takes the steps that are pending, in their order.
pub fn settle_again(
    modules: &[Module],
    steps: &[Step],
    rows: &[Row],
    choice: &Choice,
    numbers: &mut [u64],
    words: &[u64],
    starts: &[u64],
    fanout: &Fanout,
    pending: &mut Pending,
)
    requires narrow { AreNarrow modules.now }
    requires rows { AreRows modules.now starts.now steps.now rows.now }
    requires ordered { AreOrdered modules.now steps.now (length numbers.old) }
    requires keeping { IsKeeping modules.now steps.now fanout.now.starts.items fanout.now.steps.items numbers.old pending.old.steps.items }
    requires flagged { AreFlagged pending.old.steps.items pending.old.blocks.items }
    ensures numbers { numbers.new ≡ settled modules.now (choice_of choice.now) (flat_at numbers.old words.now starts.now) steps.now }
    ensures keeping { IsKeeping modules.now steps.now fanout.now.starts.items fanout.now.steps.items numbers.new pending.new.steps.items }
    ensures flagged { AreFlagged pending.new.steps.items pending.new.blocks.items }
{
    for block in 0..steps.len() / 16 + 1 {
        if is_marked(pending.blocks.as_slice(), block) {
            take_block(
                modules, steps, rows, choice, numbers, words, starts, fanout, pending, block,
            );
        }
    }
}
