// Statements and blocks (C99 6.8).

ghost use Rattle.std.specs.Prelude.{map, option_map};
ghost use Rattle.c_program.specs.Plain.{boxed_statement_of};
ghost use Rattle.c_rules.specs.Walks.{Walks};
ghost use Rattle.c_resolution.specs.States.{state};
ghost use Rattle.c_resolution.specs.Statements as spec;
ghost use Rattle.c_statements.specs.Labelled.{cases_of};

use crate::declarations::declaration;
use crate::simple::{check_break, check_continue, returned, simple};
use crate::switches::{Cases, label};
use c_expressions::cuts::Cuts;
use c_expressions::expressions::{condition, expression};
use c_expressions::sequences::{behind_cuts, sequence};
use c_program::tree as resolved;
use c_program::types::expression_type;
use c_rules::findings::{Findings, place};
use c_rules::names::Scope;
use c_tree::{Block, BlockItem, Expression, ForStart, Group, SimpleStatement, Statement};
use hls_ints::{CType, promote};
use sqlite_items::Boxed;
use std::alloc::{AllocError, Global};

/// What the head of a `for` begins with.
fn for_start<'t>(
    alloc: Global,
    scope: &mut Scope<'t>,
    found: &mut Findings,
    start: &'t ForStart,
) -> Result<Box<resolved::Statement>, AllocError>
    ensures { Walks boxed_statement_of (spec.for_start start.now (state scope.old found.old)) result (state scope.new found.new) }
{
    match start {
        ForStart::Nothing => resolved::Statement::Done.boxed(alloc),
        ForStart::Declaration(declared) => {
            let mut steps = Vec::new(alloc);
            declaration(alloc, scope, found, &mut steps, declared)?;
            sequence(alloc, steps)
        }
        ForStart::Simple(inner) => simple(alloc, scope, found, inner.get()),
    }
}

/// What a `for` has but its body: a missing condition is the constant 1.
#[tactic(auto, unfolding(c_resolution::specs::Statements::for_head))]
fn for_head<'t>(
    alloc: Global,
    scope: &mut Scope<'t>,
    found: &mut Findings,
    start: &'t ForStart,
    test: &Option<Boxed<Expression>>,
    step: &Option<Boxed<SimpleStatement>>,
) -> Result<
    (
        Box<resolved::Statement>,
        Box<resolved::Statement>,
        Box<resolved::Statement>,
    ),
    AllocError,
>
    ensures { Walks (λ h. (boxed_statement_of h.0, boxed_statement_of h.1, boxed_statement_of h.2))
        (spec.for_head start.now test.now step.now (state scope.old found.old)) result (state scope.new found.new) }
{
    let first = for_start(alloc, scope, found, start)?;
    let test = match test {
        Some(test) => condition(alloc, scope, found, scope.kept_from, test.get())?,
        None => {
            let one = resolved::Expression::Constant(CType::INT, 1);
            resolved::Statement::Test(0, Box::new(alloc, one)?).boxed(alloc)?
        }
    };
    let last = match step {
        Some(inner) => simple(alloc, scope, found, inner.get())?,
        None => resolved::Statement::Done.boxed(alloc)?,
    };
    Ok((first, test, last))
}

/// The body of a loop.
#[cycle(statements)]
#[tactic(auto, unfolding(c_resolution::specs::Statements::loop_body))]
fn loop_body<'t>(
    alloc: Global,
    scope: &mut Scope<'t>,
    found: &mut Findings,
    body: &'t Boxed<Statement>,
) -> Result<Box<resolved::Statement>, AllocError>
    ensures { Walks boxed_statement_of (spec.loop_body (spec.statement body.now) (state scope.old found.old)) result (state scope.new found.new) }
{
    scope.loops = scope.loops.saturating_add(1);
    scope.exits = scope.exits.saturating_add(1);
    let body = statement(alloc, scope, found, body.get())?;
    scope.loops = scope.loops.saturating_sub(1);
    scope.exits = scope.exits.saturating_sub(1);
    Ok(body)
}

/// A `for`, whose head has a scope of its own (C99 6.8.5).
#[cycle(statements)]
#[tactic(auto, unfolding(c_resolution::specs::Statements::for_loop))]
fn for_loop<'t>(
    alloc: Global,
    scope: &mut Scope<'t>,
    found: &mut Findings,
    body: &'t Boxed<Statement>,
    start: &'t Boxed<ForStart>,
    test: &Option<Boxed<Expression>>,
    step: &Option<Boxed<SimpleStatement>>,
) -> Result<Box<resolved::Statement>, AllocError>
    ensures { Walks boxed_statement_of (spec.for_loop start.now test.now step.now (spec.statement body.now) (state scope.old found.old))
        result (state scope.new found.new) }
{
    scope.open_block(alloc)?;
    let (first, test, last) = for_head(alloc, scope, found, start.get(), test, step)?;
    let body = loop_body(alloc, scope, found, body)?;
    scope.close_block();
    resolved::Statement::For(first, test, last, body).boxed(alloc)
}

/// The statement behind `else`, if there is one.
#[cycle(statements)]
fn alternative<'t>(
    alloc: Global,
    scope: &mut Scope<'t>,
    found: &mut Findings,
    other: &'t Option<Boxed<Statement>>,
) -> Result<Box<resolved::Statement>, AllocError>
    ensures { Walks boxed_statement_of (spec.missing_is_done (option_map spec.statement other.now) (state scope.old found.old)) result (state scope.new found.new) }
{
    match other {
        Some(inner) => statement(alloc, scope, found, inner.get()),
        None => resolved::Statement::Done.boxed(alloc),
    }
}

/// A `while` (C99 6.8.5.1).
#[cycle(statements)]
fn while_loop<'t>(
    alloc: Global,
    scope: &mut Scope<'t>,
    found: &mut Findings,
    body: &'t Boxed<Statement>,
    test: &Boxed<Expression>,
) -> Result<Box<resolved::Statement>, AllocError>
    ensures { Walks boxed_statement_of (spec.while_loop test.now (spec.statement body.now) (state scope.old found.old)) result (state scope.new found.new) }
{
    let test = condition(alloc, scope, found, scope.kept_from, test.get())?;
    let body = loop_body(alloc, scope, found, body)?;
    resolved::Statement::While(test, body).boxed(alloc)
}

/// A `do` (C99 6.8.5.2).
#[cycle(statements)]
fn do_while<'t>(
    alloc: Global,
    scope: &mut Scope<'t>,
    found: &mut Findings,
    body: &'t Boxed<Statement>,
    test: &Boxed<Expression>,
) -> Result<Box<resolved::Statement>, AllocError>
    ensures { Walks boxed_statement_of (spec.do_while (spec.statement body.now) test.now (state scope.old found.old)) result (state scope.new found.new) }
{
    let body = loop_body(alloc, scope, found, body)?;
    let test = condition(alloc, scope, found, scope.kept_from, test.get())?;
    resolved::Statement::DoWhile(body, test).boxed(alloc)
}

/// A block, which has a scope of its own (C99 6.8.2).
#[cycle(statements)]
fn block<'t>(
    alloc: Global,
    scope: &mut Scope<'t>,
    found: &mut Findings,
    block: &'t Block,
) -> Result<Box<resolved::Statement>, AllocError>
    ensures { Walks boxed_statement_of (spec.block_statement (spec.items block.now) (state scope.old found.old)) result (state scope.new found.new) }
{
    scope.open_block(alloc)?;
    let body = items(alloc, scope, found, block)?;
    scope.close_block();
    resolved::Statement::Block(body).boxed(alloc)
}

/// The declarations and statements of a block, in the scope at hand.
#[cycle(statements)]
pub fn items<'t>(
    alloc: Global,
    scope: &mut Scope<'t>,
    found: &mut Findings,
    block: &'t Block,
) -> Result<Box<resolved::Statement>, AllocError>
    ensures { Walks boxed_statement_of (spec.items block.now (state scope.old found.old)) result (state scope.new found.new) }
{
    let mut steps = Vec::new(alloc);
    for next in block.items.as_slice() {
        match next {
            BlockItem::Declaration(declared) => {
                declaration(alloc, scope, found, &mut steps, declared)?;
            }
            BlockItem::Statement(inner) => {
                let step = statement(alloc, scope, found, inner)?;
                steps.push(step)?;
            }
        }
    }
    sequence(alloc, steps)
}

/// A label of a switch over the type, and the statements behind it.
#[cycle(statements)]
fn group<'t>(
    alloc: Global,
    scope: &mut Scope<'t>,
    found: &mut Findings,
    ty: CType,
    cases: &mut Cases,
    group: &'t Group,
) -> Result<(), AllocError>
    ensures { Walks (λ x. cases_of cases.new) (spec.group group.now ty (cases_of cases.old) (state scope.old found.old)) result (state scope.new found.new) }
{
    label(alloc, scope, found, ty, &group.label, cases)?;
    for next in group.statements.as_slice() {
        let step = statement(alloc, scope, found, next)?;
        cases.steps.push(step)?;
    }
    Ok(())
}

/// The groups between the braces of a switch over the type.
#[cycle(statements)]
#[tactic(auto, unfolding(c_resolution::specs::Statements::switch_body))]
fn switch_body<'t>(
    alloc: Global,
    scope: &mut Scope<'t>,
    found: &mut Findings,
    ty: CType,
    groups: &'t [Group],
) -> Result<Box<resolved::Statement>, AllocError>
    ensures { Walks boxed_statement_of (spec.switch_body ty (map spec.group groups.now) (state scope.old found.old)) result (state scope.new found.new) }
{
    scope.exits = scope.exits.saturating_add(1);
    let mut cases = Cases::new(alloc);
    for next in groups {
        group(alloc, scope, found, ty, &mut cases, next)?;
    }
    scope.exits = scope.exits.saturating_sub(1);
    sequence(alloc, cases.steps)
}

/// A switch at the place (C99 6.8.4.2).
#[cycle(statements)]
#[tactic(auto, unfolding(c_resolution::specs::Statements::switch))]
fn switch<'t>(
    alloc: Global,
    scope: &mut Scope<'t>,
    found: &mut Findings,
    groups: &'t [Group],
    value: &Expression,
    at: u32,
) -> Result<Box<resolved::Statement>, AllocError>
    ensures { Walks boxed_statement_of (spec.switch value.now (map spec.group groups.now) at (state scope.old found.old)) result (state scope.new found.new) }
{
    let mut cuts = Cuts::free_from(alloc, scope.kept_from);
    let value = expression(alloc, scope, found, &mut cuts, at, value)?;
    let ty = promote(expression_type(&value));
    let body = switch_body(alloc, scope, found, ty, groups)?;
    let value = Box::new(alloc, value)?;
    let last = resolved::Statement::Switch(at, ty, value, body);
    behind_cuts(alloc, cuts.before, last)
}

/// A statement (C99 6.8).
#[cycle(statements)]
fn statement<'t>(
    alloc: Global,
    scope: &mut Scope<'t>,
    found: &mut Findings,
    s: &'t Statement,
) -> Result<Box<resolved::Statement>, AllocError>
    ensures { Walks boxed_statement_of (spec.statement s.now (state scope.old found.old)) result (state scope.new found.new) }
{
    match s {
        Statement::Block(inner) => block(alloc, scope, found, inner),
        Statement::Empty => resolved::Statement::Empty.boxed(alloc),
        Statement::Simple(inner) => simple(alloc, scope, found, inner.get()),
        Statement::Break(offset) => {
            check_break(scope, found, *offset);
            resolved::Statement::Break.boxed(alloc)
        }
        Statement::Continue(offset) => {
            check_continue(scope, found, *offset);
            resolved::Statement::Continue.boxed(alloc)
        }
        Statement::If(test, consequent, other) => {
            let test = condition(alloc, scope, found, scope.kept_from, test.get())?;
            let consequent = statement(alloc, scope, found, consequent.get())?;
            let other = alternative(alloc, scope, found, other)?;
            resolved::Statement::If(test, consequent, other).boxed(alloc)
        }
        Statement::While(test, body) => while_loop(alloc, scope, found, body, test),
        Statement::DoWhile(body, test) => do_while(alloc, scope, found, body, test),
        Statement::For(start, test, step, body) => {
            for_loop(alloc, scope, found, body, start, test, step)
        }
        Statement::Return(value, offset) => returned(alloc, scope, found, value, *offset),
        Statement::Switch(value, groups, offset) => {
            switch(
                alloc,
                scope,
                found,
                groups.as_slice(),
                value.get(),
                place(*offset),
            )
        }
    }
}
