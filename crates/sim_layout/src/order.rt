// An order of the steps in which each reads only what is known.

ghost use Rattle.std.specs.Prelude.{◌≡◌, ℕ, ◌+◌, ◌<◌, ◌≤◌, ◌++◌, ◌∷◌, [], true, false, length, map, slice_get, slice_set, slice_index_or, Some, IfOk, MatchOption, OnOk, IsTrue};
ghost use Rattle.sim_values.specs.declared.settle.Step.{Step as Stepping};
ghost use Rattle.verilog_meaning.specs.Threads.{operands};
ghost use Rattle.sim_values.specs.Rows.{EachOf};
ghost use Rattle.sim_values.specs.Order.{reads, module_reads, IsMarked, IsClear, SomeOf, Takes, IsOrder};
ghost use Rattle.sim_values.specs.Order.{AreHeld, IsLeft, IsStuck};
ghost use Rattle.sim_layout.specs.Waits.{IsWaiting, IsListed};
ghost use Rattle.sim_layout.specs.Growing.{IsUnmet, IsBlocked, IsGrowing};

use crate::waits::{Waits, no_waits, wait_for, wake};
use netlist::netlist::{Module, Source, Value};
use sim_values::settle::{Feed, Step};
use sqlite_items::at;
use std::alloc::{AllocError, Global};

/// An order while it grows: the words that are known, the steps that are taken, those that wait for a word that is not known,
/// and the numbers of those that are to be looked at, one after the other.
#[derive(Drop)]
pub struct Growth {
    pub marks: Vec<bool>,
    pub taken: Vec<Step>,
    pub waits: Waits,
    pub looks: Vec<usize>,
}

fn is_marked(marks: &[bool], base: usize, signal: usize) -> bool
    ensures { result ≡ slice_index_or marks.now (base + signal) false }
{
    match base.checked_add(signal) {
        Some(place) if place < marks.len() => marks[place],
        _ => false,
    }
}

/// The first word of these, which stand from a base on, that is not known. None: all are.
fn unmet_among(marks: &[bool], base: usize, signals: &[usize]) -> Option<usize>
    ensures { MatchOption result (EachOf (IsMarked marks.now) (map (λ y. base + y) signals.now)) (IsUnmet marks.now (map (λ y. base + y) signals.now)) }
{
    for signal in signals {
        if !is_marked(marks, base, *signal) {
            return Some(base.saturating_add(*signal));
        }
    }
    None
}

fn unmet_operand(marks: &[bool], base: usize, value: &Value) -> Option<usize>
    ensures { MatchOption result (EachOf (IsMarked marks.now) (map (λ y. base + y) (operands value.now))) (IsUnmet marks.now (map (λ y. base + y) (operands value.now))) }
{
    match value {
        Value::Constant(_) => None,
        Value::Copy(of)
        | Value::BitwiseNot(of)
        | Value::Select { of, .. }
        | Value::Replication { of, .. } => unmet_among(marks, base, &[*of]),
        Value::MemoryRead { address, .. } => unmet_among(marks, base, &[*address]),
        Value::Binary { left, right, .. }
        | Value::SignedLess { left, right }
        | Value::ArithmeticShiftRight { left, right }
        | Value::Division { left, right, .. }
        | Value::SignedDivision { left, right, .. } => unmet_among(marks, base, &[*left, *right]),
        Value::Conditional {
            condition,
            if_true,
            if_false,
        } => unmet_among(marks, base, &[*condition, *if_true, *if_false]),
        Value::Concatenation(parts) => unmet_among(marks, base, parts.as_slice()),
    }
}

fn unmet_computed(
    marks: &[bool],
    base: usize,
    modules: &[Module],
    number: usize,
    signal: usize,
) -> Option<usize>
    ensures { MatchOption result (EachOf (IsMarked marks.now) (module_reads base signal (slice_get modules.now number)))
        (IsUnmet marks.now (module_reads base signal (slice_get modules.now number))) }
{
    let module = at(modules, number)?;
    let found = at(module.signals.as_slice(), signal)?;
    match &found.source {
        Source::Assigned(value) => unmet_operand(marks, base, value),
        Source::Input | Source::Register(_) | Source::Port { .. } => None,
    }
}

/// The first word that a feed reads and that is not known. None: all are.
fn unmet(marks: &[bool], modules: &[Module], feed: Feed) -> Option<usize>
    ensures { MatchOption result (EachOf (IsMarked marks.now) (reads modules.now feed)) (IsUnmet marks.now (reads modules.now feed)) }
{
    match feed {
        Feed::Zero | Feed::Enables | Feed::Preferred(_) => None,
        Feed::Copied(from) => unmet_among(marks, 0, &[from]),
        Feed::Computed {
            module,
            signal,
            spot,
        } => unmet_computed(marks, spot.base, modules, module, signal),
    }
}

/// Whether all that a feed reads is marked.
#[tactic(auto, using(crate::proofs::OrderGrowth::unmet_blocks))]
pub fn is_ready(marks: &[bool], modules: &[Module], feed: Feed) -> bool
    ensures ready { IsTrue result → EachOf (IsMarked marks.now) (reads modules.now feed) }
    ensures blocked { result ≡ false → SomeOf (IsClear marks.now) (reads modules.now feed) }
{
    match unmet(marks, modules, feed) {
        Some(_) => false,
        None => true,
    }
}

/// Takes a step: its target is known from then on, and the steps that wait for it are to be looked at again.
fn take(growth: &mut Growth, wire: Step) -> Result<(), AllocError>
    requires { wire.target < length growth.old.marks.items }
    ensures marks { OnOk result (growth.new.marks.items ≡ slice_set growth.old.marks.items wire.target true) }
    ensures taken { OnOk result (growth.new.taken.items ≡ growth.old.taken.items ++ wire ∷ []) }
    ensures waits { OnOk result (growth.new.waits ≡ growth.old.waits) }
    ensures woken { OnOk result ((k : ℕ) → IsWaiting growth.old.waits.last.items growth.old.waits.chain.items wire.target k
        → IsListed (length growth.old.looks.items) growth.new.looks.items k) }
    ensures keeps { OnOk result ((from k : ℕ) → IsListed from growth.old.looks.items k → IsListed from growth.new.looks.items k) }
{
    growth.taken.push(wire)?;
    growth.marks[wire.target] = true;
    wake(&growth.waits, wire.target, &mut growth.looks)
}

/// Takes a step where it reads only what is known; else it waits for a word that it reads.
#[tactic(auto, using(crate::proofs::OrderGrowth::grown_known))]
fn look(
    growth: &mut Growth,
    modules: &[Module],
    wires: &[Step],
    free: &[bool],
    place: usize,
    number: usize,
) -> Result<(), AllocError>
    requires growing { IsGrowing modules.now wires.now free.now place growth.old }
    requires listed { slice_get growth.old.looks.items place ≡ Some number }
    requires number { number < length wires.now }
    ensures { OnOk result (IsGrowing modules.now wires.now free.now (place + 1) growth.new) }
{
    let wire = wires[number];
    if is_marked(growth.marks.as_slice(), 0, wire.target) || wire.target >= growth.marks.len() {
        return Ok(());
    }
    match unmet(growth.marks.as_slice(), modules, wire.feed) {
        Some(word) => wait_for(&mut growth.waits, number, word)?,
        None => take(growth, wire)?,
    }
    Ok(())
}

/// Looks at the step whose number stands at a place.
#[tactic(auto, using(crate::proofs::OrderGrowth::grown_past))]
fn look_at(
    growth: &mut Growth,
    modules: &[Module],
    wires: &[Step],
    free: &[bool],
    place: usize,
) -> Result<(), AllocError>
    requires growing { IsGrowing modules.now wires.now free.now place growth.old }
    requires place { place < length growth.old.looks.items }
    ensures { OnOk result (IsGrowing modules.now wires.now free.now (place + 1) growth.new) }
{
    let number = growth.looks[place];
    if number < wires.len() {
        look(growth, modules, wires, free, place, number)
    } else {
        Ok(())
    }
}

/// Looks at steps as long as there are any.
fn grow(
    growth: &mut Growth,
    modules: &[Module],
    wires: &[Step],
    free: &[bool],
) -> Result<(), AllocError>
    requires { IsGrowing modules.now wires.now free.now 0 growth.old }
    ensures growing { OnOk result (IsGrowing modules.now wires.now free.now (length growth.new.looks.items) growth.new) }
    ensures held { OnOk result (AreHeld modules.now wires.now growth.new.marks.items (length wires.now)) }
{
    // Each wait is for another word that the step reads, so memory ends before the turns do.
    for place in 0..usize::MAX {
        if place >= growth.looks.len() {
            return Ok(());
        }
        look_at(growth, modules, wires, free, place)?;
    }
    Err(AllocError)
}

/// The numbers below one.
fn numbers_below(alloc: Global, count: usize) -> Result<Vec<usize>, AllocError>
    ensures { IfOk result (λ v. (k : ℕ) → k < count → slice_get v.items k ≡ Some k) }
{
    let mut numbers = Vec::with_capacity(alloc, count)?;
    for number in 0..count {
        numbers.push(number)?;
    }
    Ok(numbers)
}

/// No step is taken, and each is to be looked at.
fn growth_of(
    alloc: Global,
    modules: &[Module],
    wires: &[Step],
    free: &[bool],
) -> Result<Growth, AllocError>
    ensures { IfOk result (IsGrowing modules.now wires.now free.now 0) }
{
    Ok(Growth {
        marks: Vec::from_slice(alloc, free)?,
        taken: Vec::new(alloc),
        waits: no_waits(alloc, free.len())?,
        looks: numbers_below(alloc, wires.len())?,
    })
}

/// The number of a step whose target is not known.
fn clear_target(marks: &[bool], wires: &[Step]) -> Option<usize>
    ensures { MatchOption result ((s : Stepping) → Takes wires.now s → IsMarked marks.now s.target) (IsLeft wires.now marks.now) }
{
    for number in 0..wires.len() {
        if !is_marked(marks, 0, wires[number].target) {
            return Some(number);
        }
    }
    None
}

/// Orders the steps, where the places that `free` marks are known before the first. None: none can be taken any more,
/// though not all are.
#[tactic(auto, using(sim_values::proofs::Orders::order_whole, sim_values::proofs::Orders::order_stuck))]
pub fn order(
    alloc: Global,
    modules: &[Module],
    wires: &[Step],
    free: &[bool],
) -> Result<Option<Vec<Step>>, AllocError>
    ensures { IfOk result (λ o. MatchOption o (IsStuck modules.now wires.now free.now) (λ v. IsOrder modules.now wires.now free.now v.items)) }
{
    let mut growth = growth_of(alloc, modules, wires, free)?;
    grow(&mut growth, modules, wires, free)?;
    match clear_target(growth.marks.as_slice(), wires) {
        Some(_) => Ok(None),
        None => Ok(Some(growth.taken)),
    }
}
