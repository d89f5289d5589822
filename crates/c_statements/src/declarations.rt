// The declarators of a block, each with its step (C99 6.7).

ghost use Rattle.std.specs.Prelude.{◌≡◌, map};
ghost use Rattle.c_program.specs.Plain.{boxed_statement_of, statement_of};
ghost use Rattle.c_rules.specs.Walks.{Walks};
ghost use Rattle.c_resolution.specs.States.{state};
ghost use Rattle.c_resolution.specs.Locals as spec;

use crate::lengths::dimensions;
use crate::locals::{declare, local};
use c_expressions::cuts::Cuts;
use c_expressions::expressions::expression;
use c_expressions::sequences::behind_cuts;
use c_program::tree as resolved;
use c_rules::constants::operator_count;
use c_rules::fault::Rule;
use c_rules::findings::{Findings, place};
use c_rules::names::{Meaning, Scope};
use c_rules::specifiers::{Spelled, spelled_by};
use c_tree::{Declaration, Declarator, Expression, Name};
use std::alloc::{AllocError, Global};

/// The operators and casts in the lengths of an array.
fn operators_in(lengths: &[Expression]) -> u32
    ensures { result ≡ spec.operators_in lengths.now }
{
    let mut count = 0u32;
    for e in lengths {
        count = count.saturating_add(operator_count(e));
    }
    count
}

/// The step of a declarator without an initialiser.
fn uninitialised(declarator: &Declarator, meaning: Meaning) -> resolved::Statement
    ensures { statement_of result ≡ spec.uninitialised declarator.now meaning }
{
    match meaning {
        Meaning::Variable(variable) => {
            let operators = operators_in(declarator.lengths.as_slice());
            let offset = place(declarator.name.offset);
            resolved::Statement::Declare(offset, variable.number, operators)
        }
        _ => resolved::Statement::Empty,
    }
}

/// The step of a declarator with an initialiser, which only a scalar may have.
#[tactic(auto, unfolding(c_resolution::specs::Locals::initialised, c_resolution::specs::Locals::initialised_by))]
fn initialised(
    alloc: Global,
    scope: &Scope<'_>,
    found: &mut Findings,
    name: &Name,
    meaning: Meaning,
    value: &Expression,
) -> Result<Box<resolved::Statement>, AllocError>
    ensures { Walks boxed_statement_of (spec.initialised name.now meaning value.now scope.now found.old) result found.new }
{
    let at = place(name.offset);
    let mut cuts = Cuts::free_from(alloc, scope.kept_from);
    let right = expression(alloc, scope, found, &mut cuts, at, value)?;
    match meaning {
        Meaning::Variable(variable) if variable.dimensions.is_scalar() => {
            let ty = variable.ty.c_type();
            let target = resolved::Place::Scalar(variable.storage, variable.number, ty);
            let target = Box::new(alloc, target)?;
            let right = Box::new(alloc, right)?;
            let last = resolved::Statement::Assign(at, target, right);
            behind_cuts(alloc, cuts.before, last)
        }
        _ => {
            found.add(Rule::Kind, name.offset);
            resolved::Statement::Empty.boxed(alloc)
        }
    }
}

/// Declares a name, and gives the step of its declarator.
#[tactic(auto, unfolding(c_resolution::specs::Locals::declarator))]
fn declarator<'t>(
    alloc: Global,
    scope: &mut Scope<'t>,
    found: &mut Findings,
    words: Spelled,
    declared: &'t Declarator,
) -> Result<Box<resolved::Statement>, AllocError>
    ensures { Walks boxed_statement_of (spec.declarator words declared.now (state scope.old found.old)) result (state scope.new found.new) }
{
    let dimensions = dimensions(alloc, scope, found, declared.lengths.as_slice())?;
    let meaning = local(scope, found, words, declared.name.offset, dimensions)?;
    declare(scope, found, &declared.name, meaning)?;
    match &declared.initializer {
        Some(value) => initialised(alloc, scope, found, &declared.name, meaning, value.get()),
        None => uninitialised(declared, meaning).boxed(alloc),
    }
}

/// Adds the steps of a declaration.
#[tactic(auto, unfolding(c_resolution::specs::Locals::declaration))]
pub fn declaration<'t>(
    alloc: Global,
    scope: &mut Scope<'t>,
    found: &mut Findings,
    steps: &mut Vec<Box<resolved::Statement>>,
    declaration: &'t Declaration,
) -> Result<(), AllocError>
    ensures { Walks (λ x. map boxed_statement_of steps.new.items)
        (spec.declaration (map boxed_statement_of steps.old.items) declaration.now (state scope.old found.old))
        result (state scope.new found.new) }
{
    let words = spelled_by(&declaration.specifiers);
    for declared in declaration.declarators.as_slice() {
        let step = declarator(alloc, scope, found, words, declared)?;
        steps.push(step)?;
    }
    Ok(())
}
