// What the operations of a loop use that earlier iterations gave its variables.

ghost use Rattle.std.specs.Prelude.{◌≡◌, ◌^◌, ◌<◌, ◌++◌, length, IfOk, OnOk};
ghost use Rattle.plan_blocks.specs.Alike.{FinalsNeedBelow};
ghost use Rattle.loop_pipeline.specs.Table.{AreCarried};
ghost use Rattle.loop_plans.specs.Carried.{AreUses};
ghost use Rattle.loop_plans.specs.Listed.{AreLastSources, origin_of, use_of, uses_of};

use block_ir::block::{Final, Operation};
use block_ir::operand::{Operand, Source};
use loop_pipeline::table::Carried;
use std::alloc::{AllocError, Global};
use std::collections::BTreeMap;

/// What a variable holds as an iteration begins: the value that an operation had so many iterations before.
#[derive(Clone, Copy)]
pub struct Origin {
    pub operation: usize,
    pub turns: u32,
}

/// Which operations of a loop, whose condition, body and step are one block, use what another one gave a variable some
/// iterations before, handed on by wires alone. An operation whose two operands do is listed twice. For n operations
/// and v finals it takes time in proportion to n * v * log v, where variables are copies of copies, and mostly to
/// n * log v. The only error is want of memory.
pub fn carried_of(
    alloc: Global,
    operations: &[Operation],
    finals: &[Final],
) -> Result<Vec<Carried>, AllocError>
    requires finals { FinalsNeedBelow (length operations.now) finals.now }
    requires few { length finals.now < 2 ^ 32 }
    ensures uses { IfOk result (λ list. AreUses operations.now finals.now list.items) }
    ensures carried { IfOk result (λ list. AreCarried (length operations.now) list.items) }
{
    let last = last_sources(alloc, finals)?;
    let mut list = Vec::new(alloc);
    for (number, operation) in operations.iter().enumerate() {
        put_uses(&mut list, finals, &last, number, operation)?;
    }
    Ok(list)
}

// What the last final of each variable gives it.
fn last_sources(alloc: Global, finals: &[Final]) -> Result<BTreeMap<u32, Source>, AllocError>
    ensures { IfOk result (AreLastSources finals.now) }
{
    let mut last = BTreeMap::new(alloc);
    for last_final in finals {
        last.insert(last_final.variable, last_final.value.source)?;
    }
    Ok(last)
}

fn put_uses(
    list: &mut Vec<Carried>,
    finals: &[Final],
    last: &BTreeMap<u32, Source>,
    number: usize,
    operation: &Operation,
) -> Result<(), AllocError>
    requires last { AreLastSources finals.now last.now }
    requires few { length finals.now < 2 ^ 32 }
    ensures { OnOk result (list.new.items ≡ list.old.items ++ uses_of finals.now number operation.now) }
{
    match operation {
        Operation::Unary { operand, .. } => put_use(list, finals, last, number, operand),
        Operation::Binary { left, right, .. } => {
            put_use(list, finals, last, number, left)?;
            put_use(list, finals, last, number, right)
        }
        Operation::ReadGlobal { index, .. } => put_use(list, finals, last, number, index),
        Operation::WriteGlobal { index, value, .. } => {
            put_use(list, finals, last, number, index)?;
            put_use(list, finals, last, number, value)
        }
        Operation::ReadArray { index, .. } => put_use(list, finals, last, number, index),
        Operation::WriteArray { index, value, .. } => {
            put_use(list, finals, last, number, index)?;
            put_use(list, finals, last, number, value)
        }
    }
}

fn put_use(
    list: &mut Vec<Carried>,
    finals: &[Final],
    last: &BTreeMap<u32, Source>,
    number: usize,
    operand: &Operand,
) -> Result<(), AllocError>
    requires last { AreLastSources finals.now last.now }
    requires few { length finals.now < 2 ^ 32 }
    ensures { OnOk result (list.new.items ≡ list.old.items ++ use_of finals.now number operand.now.source) }
{
    let Source::Variable(variable, _) = operand.source else {
        return Ok(());
    };
    let Some(origin) = origin_of(finals, last, variable) else {
        return Ok(());
    };
    list.push(Carried {
        from: origin.operation,
        to: number,
        turns: origin.turns,
    })?;
    Ok(())
}

// Where a variable comes from, by following the finals from iteration to iteration before.
fn origin_of(finals: &[Final], last: &BTreeMap<u32, Source>, variable: u32) -> Option<Origin>
    requires last { AreLastSources finals.now last.now }
    requires few { length finals.now < 2 ^ 32 }
    ensures { result ≡ origin_of finals.now variable }
{
    let mut variable = variable;
    for turn in 0..finals.len() {
        match last.get(&variable).copied() {
            Some(Source::Variable(next, _)) => variable = next,
            Some(Source::Value(operation, _)) => {
                return Some(Origin {
                    operation: operation as usize,
                    turns: turn as u32 + 1,
                });
            }
            Some(Source::Constant(_, _)) | None => return None,
        }
    }
    None
}
