// The locals in which statements keep values, behind those that are declared.

ghost use Rattle.std.specs.Prelude.{◌≡◌, OnOk};
ghost use Rattle.c_program.specs.Plain.{statement_of};
ghost use Rattle.c_resolution.specs.Slots as spec;

use c_program::tree::{LocalVariable, Statement};
use hls_ints::CType;
use std::alloc::AllocError;

fn slot_end(slot: Option<u32>) -> u64
    ensures { result ≡ spec.slot_end slot }
{
    match slot {
        Some(slot) => u64::from(slot) + 1,
        None => 0,
    }
}

/// The number behind the last local in which the statement keeps a value, and 0 where it keeps none.
pub fn slots_end(statement: &Statement) -> u64
    ensures { result ≡ spec.slots_end (statement_of statement.now) }
{
    match statement {
        Statement::Call(_, into, _, _) => slot_end(*into),
        Statement::Keep(_, slot, _, _) => slot_end(Some(*slot)),
        Statement::Truth(slot, condition) => slot_end(Some(*slot)).max(slots_end(condition)),
        Statement::Block(inner) | Statement::Opposite(inner) | Statement::Switch(_, _, _, inner) =>
            { slots_end(inner) }
        Statement::Sequence(first, second)
        | Statement::Both(first, second)
        | Statement::Either(first, second)
        | Statement::While(first, second)
        | Statement::DoWhile(first, second) => slots_end(first).max(slots_end(second)),
        Statement::If(condition, consequent, alternative) => {
            slots_end(condition).max(slots_end(consequent).max(slots_end(alternative)))
        }
        Statement::For(first, condition, last, body) => {
            slots_end(first).max(slots_end(condition).max(slots_end(last).max(slots_end(body))))
        }
        _ => 0,
    }
}

/// Adds scalars of the type long until there are so many locals.
pub fn add_slots(locals: &mut Vec<LocalVariable>, end: u64) -> Result<(), AllocError>
    ensures { OnOk result (locals.new.items ≡ spec.with_slots end locals.old.items) }
{
    let missing = end.saturating_sub(locals.len() as u64);
    for _slot in 0..missing {
        locals.push(LocalVariable {
            ty: CType::LONG,
            length: 1,
        })?;
    }
    Ok(())
}
