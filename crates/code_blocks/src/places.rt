// What is read and written: variables, elements of local arrays, elements of globals.

ghost use Rattle.std.specs.Prelude.{◌≡◌, ◌+◌, ◌*◌, ◌^◌, ◌<◌, length, IfOk, IfErr};
ghost use Rattle.c_program.specs.Plain.{place_of};
ghost use Rattle.c_program.specs.Weight.{place_weight};
ghost use Rattle.code_blocks.specs.Assigning as assigning;
ghost use Rattle.code_blocks.specs.Evaluating as evaluating;
ghost use Rattle.code_blocks.specs.Room.{IsFull};

use crate::expressions::{first_index, lower_expression};
use crate::fault::LoweringFault;
use crate::homes::Home;
use crate::open_block::OpenBlock;
use crate::operands::{converted, copy_of};
use block_ir::block::Operation;
use block_ir::operand::Operand;
use c_program::tree::{Place, Storage};
use hls_ints::CType;
use std::alloc::Global;

/// Where a value of a type stands: a variable, or an element of an array or of a global of so many.
#[derive(Drop)]
pub enum Target {
    Variable(u32, CType),
    Array(u32, u64, CType, Operand),
    Global(u32, u64, CType, Operand),
}

/// The element of an object of so many at an index. An object with one element has no other.
pub fn target_at(
    homes: &[Home],
    storage: Storage,
    variable: u32,
    length: u64,
    ty: CType,
    index: Operand,
) -> Target
    ensures { result ≡ evaluating.target_at homes.now storage variable length ty index }
{
    match storage {
        Storage::Static => Target::Global(variable, length, ty, index),
        Storage::Automatic => match homes.get(variable as usize).copied() {
            Some(Home::Array(array)) => Target::Array(array, length, ty, index),
            Some(Home::Variable(number)) => Target::Variable(number, ty),
            None => Target::Variable(variable, ty),
        },
    }
}

/// Adds the operations of the index of a place.
#[tactic(auto, using(crate::proofs::Steps::scalar_at, crate::proofs::Steps::element_at))]
pub fn lower_place(
    alloc: Global,
    homes: &[Home],
    block: &mut OpenBlock,
    place: &Place,
) -> Result<Target, LoweringFault>
    ensures places { IfOk result (λ t. assigning.Places homes.now (place_of place.now) block.old block.new t) }
    ensures full { IfErr result (IsFull (length block.old.operations + 3 * place_weight (place_of place.now))) }
{
    match place {
        Place::Scalar(storage, variable, ty) => {
            let index = first_index(alloc);
            Ok(target_at(homes, *storage, *variable, 1, *ty, index))
        }
        Place::Element(storage, variable, length, ty, index) => {
            let index = lower_expression(alloc, homes, block, index)?;
            Ok(target_at(homes, *storage, *variable, *length, *ty, index))
        }
    }
}

/// What stands there.
pub fn load(alloc: Global, block: &mut OpenBlock, target: &Target) -> Result<Operand, LoweringFault>
    ensures block { IfOk result (λ _. block.new ≡ evaluating.load_block target.now block.old) }
    ensures value { IfOk result (λ a. a ≡ evaluating.loaded target.now block.old) }
    ensures few { IfOk result (λ _. length block.old.operations < 2 ^ 32 → length block.new.operations < 2 ^ 32) }
    ensures full { IfErr result (IsFull (length block.old.operations + 1)) }
{
    match target {
        Target::Variable(variable, ty) => { Ok(block.variable(alloc, *variable, *ty)?) }
        Target::Array(array, length, ty, index) => {
            let index = copy_of(alloc, index)?;
            block.put(
                alloc,
                Operation::ReadArray {
                    array: *array,
                    length: *length,
                    index,
                },
                *ty,
            )
        }
        Target::Global(global, length, ty, index) => {
            let index = copy_of(alloc, index)?;
            block.put(
                alloc,
                Operation::ReadGlobal {
                    global: *global,
                    length: *length,
                    index,
                },
                *ty,
            )
        }
    }
}

/// A value, converted to the target's type, stands there from now on.
#[tactic(auto, using(crate::proofs::Steps::stores_variable, crate::proofs::Steps::stores_array, crate::proofs::Steps::stores_global))]
pub fn store(
    alloc: Global,
    block: &mut OpenBlock,
    target: Target,
    value: &Operand,
) -> Result<(), LoweringFault>
    ensures stores { IfOk result (λ _. assigning.Stores target value.now block.old block.new) }
    ensures few { IfOk result (λ _. length block.old.operations < 2 ^ 32 → length block.new.operations < 2 ^ 32) }
    ensures full { IfErr result (IsFull (length block.old.operations + 1)) }
{
    match target {
        Target::Variable(variable, ty) => {
            let value = converted(alloc, value, ty)?;
            block.set(variable, value)?;
            Ok(())
        }
        Target::Array(array, length, ty, index) => {
            let value = converted(alloc, value, ty)?;
            let _ = block.put(
                alloc,
                Operation::WriteArray {
                    array,
                    length,
                    index,
                    value,
                },
                ty,
            )?;
            Ok(())
        }
        Target::Global(global, length, ty, index) => {
            let value = converted(alloc, value, ty)?;
            let _ = block.put(
                alloc,
                Operation::WriteGlobal {
                    global,
                    length,
                    index,
                    value,
                },
                ty,
            )?;
            Ok(())
        }
    }
}
