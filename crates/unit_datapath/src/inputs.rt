// The multiplexers of the operands of units.

ghost use Rattle.std.specs.Prelude.{◌≡◌, ℕ, true, false, length, replicate, slice_get, slice_set, IfOk, OnOk};
ghost use Rattle.unit_datapath.specs.Inputs.{is_begun, BeginsInputs, LinksUnit, LinksBegun};

use block_datapath::registers::set_next;
use block_datapath::requests::{equal_widths, zeros};
use operator_wires::wires::Wires;
use sqlite_items::Items;
use std::alloc::{AllocError, Global};

/// What the units of a kind work on, by number: the last links so far.
#[derive(Drop)]
pub struct UnitInputs {
    /// Whether an operation has given the unit operands.
    pub begun: Items<bool>,
    pub lefts: Items<usize>,
    pub rights: Items<usize>,
}

impl UnitInputs {
    /// Zeros of so many bits for so many units, of which none is begun.
    pub fn begin(wires: &mut Wires, count: usize, width: u64) -> Result<UnitInputs, AllocError>
        ensures { IfOk result (BeginsInputs wires.old.signals wires.new.signals count width) }
    {
        let widths = equal_widths(wires.alloc, count, width)?;
        let lefts = zeros(wires, widths.as_slice())?;
        let rights = zeros(wires, widths.as_slice())?;
        let begun = none_begun(wires.alloc, count)?;
        Ok(UnitInputs {
            begun,
            lefts,
            rights,
        })
    }
}

fn none_begun(alloc: Global, count: usize) -> Result<Items<bool>, AllocError>
    ensures { IfOk result (λ begun. begun ≡ replicate count false) }
{
    Ok(Items::from_vec(vec![in alloc; false; count]?))
}

fn begun_at(begun: &[bool], unit: usize) -> Option<bool>
    ensures { result ≡ slice_get begun.now unit }
{
    begun.get(unit).copied()
}

fn is_begun(begun: &[bool], unit: usize) -> bool
    ensures { result ≡ is_begun (slice_get begun.now unit) }
{
    match begun_at(begun, unit) {
        Some(begun) => begun,
        None => false,
    }
}

/// Where a bit is set a unit gets these operands. Those of its first operation it gets wherever no later one is at work, so
/// that a unit which one operation has alone has no multiplexer before it.
pub fn link_unit(
    wires: &mut Wires,
    inputs: &mut UnitInputs,
    unit: usize,
    width: u64,
    here: usize,
    left: usize,
    right: usize,
) -> Result<(), AllocError>
    ensures { OnOk result (LinksUnit wires.old.signals wires.new.signals inputs.old inputs.new unit width here left right) }
{
    if is_begun(inputs.begun.as_slice(), unit) {
        link_begun(wires, inputs, unit, width, here, left, right)
    } else {
        begin_unit(inputs, unit, left, right);
        Ok(())
    }
}

/// One link more for a unit that has some.
fn link_begun(
    wires: &mut Wires,
    inputs: &mut UnitInputs,
    unit: usize,
    width: u64,
    here: usize,
    left: usize,
    right: usize,
) -> Result<(), AllocError>
    ensures { OnOk result (LinksBegun wires.old.signals wires.new.signals inputs.old inputs.new unit width here left right) }
{
    set_next(wires, &mut inputs.lefts, unit, width, here, left)?;
    set_next(wires, &mut inputs.rights, unit, width, here, right)
}

/// A unit begins with these operands.
fn begin_unit(inputs: &mut UnitInputs, unit: usize, left: usize, right: usize)
    ensures begun { inputs.new.begun ≡ slice_set inputs.old.begun unit true }
    ensures lefts { inputs.new.lefts ≡ slice_set inputs.old.lefts unit left }
    ensures rights { inputs.new.rights ≡ slice_set inputs.old.rights unit right }
{
    mark(&mut inputs.begun, unit);
    put(&mut inputs.lefts, unit, left);
    put(&mut inputs.rights, unit, right);
}

#[tactic(auto, using(crate::proofs::UnitInputs::set_past))]
fn mark(marks: &mut Items<bool>, number: usize)
    ensures { marks.new ≡ slice_set marks.old number true }
{
    if number < marks.len() {
        marks.set(number, true);
    }
}

#[tactic(auto, using(crate::proofs::UnitInputs::set_past))]
fn put(places: &mut Items<usize>, number: usize, place: usize)
    ensures { places.new ≡ slice_set places.old number place }
{
    if number < places.len() {
        places.set(number, place);
    }
}
