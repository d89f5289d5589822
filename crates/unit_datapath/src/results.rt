// The operators of units.

ghost use Rattle.std.specs.Prelude.{◌≡◌, ◌≤◌, length, IfOk};
ghost use Rattle.unit_datapath.specs.Results.{ShowsResults};

use crate::inputs::UnitInputs;
use block_datapath::registers::place_at;
use c_program::tree::BinaryOperator;
use hls_ints::CType;
use operator_wires::wires::Wires;
use operator_wires::words::Word;
use sqlite_items::Items;
use std::alloc::AllocError;

/// What an operator gives on the operands of each of the first units.
pub fn unit_results(
    wires: &mut Wires,
    inputs: &UnitInputs,
    operator: BinaryOperator,
    ty: CType,
    count: usize,
) -> Result<Items<usize>, AllocError>
    requires lefts { count ≤ length inputs.now.lefts }
    requires rights { count ≤ length inputs.now.rights }
    ensures { IfOk result (ShowsResults wires.old.signals wires.new.signals inputs.now operator ty count) }
{
    let lefts = inputs.lefts.as_slice();
    let rights = inputs.rights.as_slice();
    let mut places = Items::new(wires.alloc);
    for number in 0..count {
        let left = Word::of_type(place_at(lefts, number), ty);
        let right = Word::of_type(place_at(rights, number), ty);
        let word = wires.binary_word(operator, ty, left, right)?;
        places.push(word.place)?;
    }
    Ok(places)
}
