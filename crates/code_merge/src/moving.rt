// Operations behind a block: their values come later, and variables are what the block left in them.

ghost use Rattle.std.specs.Prelude.{◌≡◌, ◌++◌, [], ◌∷◌, map, IfOk, OnOk};
ghost use Rattle.code_merge.specs.Joined as spec;

use block_ir::block::{Final, Next, Operation};
use block_ir::operand::{Operand, Source};
use code_blocks::open_block::OpenBlock;
use code_blocks::operands::plain;
use sqlite_items::Items;
use std::alloc::{AllocError, Global};

/// A block of so many operations, and what it leaves in variables.
#[derive(Clone, Copy)]
pub struct Before<'a> {
    pub count: u32,
    pub left: &'a OpenBlock,
}

fn moved_source(alloc: Global, before: &Before, source: Source) -> Result<Operand, AllocError>
    ensures { IfOk result (λ o. o ≡ spec.moved_source before.now.count before.now.left.now.current source) }
{
    match source {
        Source::Constant(ty, value) => Ok(plain(alloc, Source::Constant(ty, value))),
        Source::Variable(variable, ty) => before.left.variable(alloc, variable, ty),
        Source::Value(number, ty) => {
            let later = before.count.saturating_add(number);
            Ok(plain(alloc, Source::Value(later, ty)))
        }
    }
}

pub fn moved(alloc: Global, before: &Before, operand: &Operand) -> Result<Operand, AllocError>
    ensures { IfOk result (λ o. o ≡ spec.moved before.now.count before.now.left.now.current operand.now) }
{
    let Operand {
        source,
        mut conversions,
    } = moved_source(alloc, before, operand.source)?;
    let more = Items::from_slice(alloc, operand.conversions.as_slice())?;
    conversions.append(more)?;
    Ok(Operand {
        source,
        conversions,
    })
}

/// Both operands of an operation.
fn both_moved(
    alloc: Global,
    before: &Before,
    left: &Operand,
    right: &Operand,
) -> Result<(Operand, Operand), AllocError>
    ensures { IfOk result (λ both. both ≡ (spec.moved before.now.count before.now.left.now.current left.now, spec.moved before.now.count before.now.left.now.current right.now)) }
{
    let left = moved(alloc, before, left)?;
    let right = moved(alloc, before, right)?;
    Ok((left, right))
}

/// This operation behind those of the block.
fn push_one(
    alloc: Global,
    before: &Before,
    operations: &mut Items<Operation>,
    operation: &Operation,
) -> Result<(), AllocError>
    ensures { OnOk result (operations.new ≡ operations.old ++ spec.moved_operation before.now.count before.now.left.now.current operation.now ∷ []) }
{
    match operation {
        Operation::Unary {
            operator,
            ty,
            operand,
        } => operations.push(Operation::Unary {
            operator: *operator,
            ty: *ty,
            operand: moved(alloc, before, operand)?,
        }),
        Operation::Binary {
            operator,
            ty,
            left,
            right,
        } => {
            let (left, right) = both_moved(alloc, before, left, right)?;
            operations.push(Operation::Binary {
                operator: *operator,
                ty: *ty,
                left,
                right,
            })
        }
        Operation::ReadGlobal {
            global,
            length,
            index,
        } => operations.push(Operation::ReadGlobal {
            global: *global,
            length: *length,
            index: moved(alloc, before, index)?,
        }),
        Operation::WriteGlobal {
            global,
            length,
            index,
            value,
        } => {
            let (index, value) = both_moved(alloc, before, index, value)?;
            operations.push(Operation::WriteGlobal {
                global: *global,
                length: *length,
                index,
                value,
            })
        }
        Operation::ReadArray {
            array,
            length,
            index,
        } => operations.push(Operation::ReadArray {
            array: *array,
            length: *length,
            index: moved(alloc, before, index)?,
        }),
        Operation::WriteArray {
            array,
            length,
            index,
            value,
        } => {
            let (index, value) = both_moved(alloc, before, index, value)?;
            operations.push(Operation::WriteArray {
                array: *array,
                length: *length,
                index,
                value,
            })
        }
    }
}

/// These operations behind those of the block.
pub fn push_moved(
    alloc: Global,
    before: &Before,
    operations: &mut Items<Operation>,
    more: &[Operation],
) -> Result<(), AllocError>
    ensures { OnOk result (operations.new ≡ operations.old ++ map (spec.moved_operation before.now.count before.now.left.now.current) more.now) }
{
    for operation in more {
        push_one(alloc, before, operations, operation)?;
    }
    Ok(())
}

pub fn moved_finals(
    alloc: Global,
    before: &Before,
    finals: &[Final],
) -> Result<Items<Final>, AllocError>
    ensures { IfOk result (λ fs. fs ≡ map (spec.moved_final before.now.count before.now.left.now.current) finals.now) }
{
    let mut all = Items::new(alloc);
    for last in finals {
        let value = moved(alloc, before, &last.value)?;
        all.push(Final {
            variable: last.variable,
            value,
        })?;
    }
    Ok(all)
}

pub fn moved_next(alloc: Global, before: &Before, next: &Next) -> Result<Next, AllocError>
    ensures { IfOk result (λ n. n ≡ spec.moved_next before.now.count before.now.left.now.current next.now) }
{
    Ok(match next {
        Next::Jump(stage) => Next::Jump(*stage),
        Next::Branch {
            test,
            nonzero,
            zero,
        } => Next::Branch {
            test: moved(alloc, before, test)?,
            nonzero: *nonzero,
            zero: *zero,
        },
    })
}
