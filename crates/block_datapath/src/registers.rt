// The registers of a slot, and what they hold next if the state is left.

ghost use Rattle.std.specs.Prelude.{◌≡◌, slice_index, OnOk};
ghost use Rattle.block_datapath.specs.Wired.{IsLinked};
ghost use Rattle.block_datapath.specs.Chains.{SetsNext};

use bank_partition::banks::Spread;
use c_program::tree::BinaryOperator;
use hls_ints::CType;
use operator_wires::wires::Wires;
use sqlite_items::Items;
use std::alloc::AllocError;

/// A register and its width.
#[derive(Clone, Copy)]
pub struct Held {
    pub register: usize,
    pub width: u64,
}

/// The results of the functional units of one kind for one operator, by the number of the unit.
#[derive(Drop)]
pub struct UnitResults {
    /// Multiply, Divide or Remainder.
    pub operator: BinaryOperator,
    /// The type in which the units work; products of both signs are made in the unsigned one.
    pub ty: CType,
    /// Where the results stand, each as wide as the type.
    pub places: Items<usize>,
}

/// Where the parts of a slot stand.
#[derive(Drop)]
pub struct Registers {
    pub stage: Held,
    pub state: Held,
    pub beat: usize,
    /// The scalar variables, each as wide as its type.
    pub variables: Items<Held>,
    /// Registers for values of operations, each as wide as the widest of them.
    pub kept: Items<Held>,
    /// For each bank the input on which it tells the word last read.
    pub words: Items<Held>,
    /// For each global where its banks are among them.
    pub spreads: Items<Spread>,
    /// The results of the functional units.
    pub units: Items<UnitResults>,
}

/// The place of a number, or 0.
pub fn place_at(places: &[usize], number: usize) -> usize
    ensures { result ≡ slice_index places.now number }
{
    places.get(number).copied().unwrap_or(0)
}

/// Where a condition holds the register of that number, if there is one, gets what another signal of its width shows,
/// else what it would get so far.
pub fn set_next(
    wires: &mut Wires,
    nexts: &mut Items<usize>,
    number: usize,
    width: u64,
    condition: usize,
    source: usize,
) -> Result<(), AllocError>
    ensures shows { OnOk result (SetsNext wires.old.signals wires.new.signals nexts.old nexts.new number condition source) }
    ensures wired { OnOk result (IsLinked wires.old.signals wires.new.signals number width condition source nexts.old nexts.new) }
{
    let Some(old) = nexts.get(number).copied() else {
        return Ok(());
    };
    let next = wires.choice(width, condition, source, old)?;
    nexts.set(number, next);
    Ok(())
}
