// Operands and their conversions.

ghost use Rattle.std.specs.Prelude.{◌≡◌, IfOk};
ghost use Rattle.std.specs.List.{filter};
ghost use Rattle.code_blocks.specs.Needs as operands;

use block_ir::operand::{Operand, Source};
use hls_ints::CType;
use sqlite_items::Items;
use std::alloc::{AllocError, Global};

/// What a source has, not converted.
pub fn plain(alloc: Global, source: Source) -> Operand
    ensures { result ≡ operands.plain source }
{
    Operand {
        source,
        conversions: Items::new(alloc),
    }
}

/// A copy of an operand.
pub fn copy_of(alloc: Global, operand: &Operand) -> Result<Operand, AllocError>
    ensures { IfOk result (λ copy. copy ≡ operand.now) }
{
    let conversions = Items::from_slice(alloc, operand.conversions.as_slice())?;
    Ok(Operand {
        source: operand.source,
        conversions,
    })
}

/// The conversions of these to fewer bits than the type has, in their order.
fn narrower(alloc: Global, conversions: &[CType], ty: CType) -> Result<Items<CType>, AllocError>
    ensures { IfOk result (λ kept. kept ≡ filter (operands.is_narrower ty) conversions.now) }
{
    let mut kept = Items::new(alloc);
    for conversion in conversions {
        if conversion.bits() < ty.bits() {
            kept.push(*conversion)?;
        }
    }
    Ok(kept)
}

/// The operand converted to a type. Earlier conversions to as many bits or more then change nothing, so an operand has
/// at most one conversion of each width.
#[tactic(auto, using(crate::proofs::Conversions::conversions_right))]
pub fn converted(alloc: Global, operand: &Operand, ty: CType) -> Result<Operand, AllocError>
    ensures { IfOk result (λ after. operands.IsConverted ty operand.now after) }
{
    let mut conversions = narrower(alloc, operand.conversions.as_slice(), ty)?;
    conversions.push(ty)?;
    Ok(Operand {
        source: operand.source,
        conversions,
    })
}
