// What statements write and print.

ghost use Rattle.std.specs.Prelude.{◌≡◌, OnOk};
ghost use Rattle.std.specs.List.{list_any};
ghost use Rattle.verilog_tree.specs.Facts as fact;
ghost use Rattle.verilog_tree.specs.Rules.{all_right};
ghost use Rattle.verilog_tree.specs.WellFormed.{none_known};

use crate::names::NameSet;
use std::alloc::AllocError;
use verilog_tree::tree::{Item, Statement};

/// The statements of an always block.
pub fn body_of(item: &Item) -> &[Statement]
    ensures { result.now ≡ fact.body_of item.now }
{
    match item {
        Item::Always(always) => always.body.as_slice(),
        _ => &[],
    }
}

#[cycle(none)]
#[tactic(auto, using(crate::proofs::Cases::none_set, crate::proofs::Cases::none_store, crate::proofs::Cases::none_write, crate::proofs::Cases::none_if))]
fn writes_none(written: &NameSet, statement: &Statement) -> bool
    ensures { result ≡ none_known written.now (fact.written_by statement.now) }
{
    match statement {
        Statement::Set { register: name, .. } | Statement::Store { memory: name, .. } => {
            !written.contains(name)
        }
        Statement::If { body, .. } => all_write_none(written, body.as_slice()),
        Statement::Write { .. } => true,
    }
}

/// Whether the statements write nothing that is in the set.
#[cycle(none)]
pub fn all_write_none(written: &NameSet, statements: &[Statement]) -> bool
    ensures { result ≡ all_right (λ s. none_known written.now (fact.written_by s)) statements.now }
{
    for statement in statements {
        if !writes_none(written, statement) {
            return false;
        }
    }
    true
}

#[cycle(note)]
#[tactic(auto, using(crate::proofs::Cases::after_set, crate::proofs::Cases::after_store, crate::proofs::Cases::after_write, crate::proofs::Cases::after_if))]
fn note_writes<'t>(written: &mut NameSet<'t>, statement: &'t Statement) -> Result<(), AllocError>
    ensures { OnOk result (written.new ≡ fact.after_statement written.old statement.now) }
{
    match statement {
        Statement::Set { register: name, .. } | Statement::Store { memory: name, .. } => {
            written.add(name)?;
            Ok(())
        }
        Statement::If { body, .. } => note_all_writes(written, body.as_slice()),
        Statement::Write { .. } => Ok(()),
    }
}

/// Adds what the statements write.
#[cycle(note)]
pub fn note_all_writes<'t>(
    written: &mut NameSet<'t>,
    statements: &'t [Statement],
) -> Result<(), AllocError>
    ensures { OnOk result (written.new ≡ fact.after fact.after_statement written.old statements.now) }
{
    for statement in statements {
        note_writes(written, statement)?;
    }
    Ok(())
}

#[cycle(prints)]
#[tactic(auto, using(crate::proofs::Cases::prints_set, crate::proofs::Cases::prints_store, crate::proofs::Cases::prints_write, crate::proofs::Cases::prints_if))]
fn statement_prints(statement: &Statement) -> bool
    ensures { result ≡ fact.statement_prints statement.now }
{
    match statement {
        Statement::If { body, .. } => any_prints(body.as_slice()),
        Statement::Write { .. } => true,
        Statement::Set { .. } | Statement::Store { .. } => false,
    }
}

#[cycle(prints)]
fn any_prints(statements: &[Statement]) -> bool
    ensures { result ≡ list_any fact.statement_prints statements.now }
{
    for statement in statements {
        if statement_prints(statement) {
            return true;
        }
    }
    false
}

/// Whether it is an always block with a `$write`.
pub fn item_prints(item: &Item) -> bool
    ensures { result ≡ fact.item_prints item.now }
{
    any_prints(body_of(item))
}
