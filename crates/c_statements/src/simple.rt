// Statements without statements in them (C99 6.8.3, 6.8.6, 6.5.16).

ghost use Rattle.std.specs.Prelude.{◌≡◌, IfOk, Some, box_value};
ghost use Rattle.c_program.specs.Plain.{boxed_statement_of, expression_of, place_of};
ghost use Rattle.c_program.specs.Tree as tree;
ghost use Rattle.c_rules.specs.Walks.{Outcome, Walks};
ghost use Rattle.c_expressions.specs.Cuts.{cut, cuts_of};
ghost use Rattle.c_expressions.specs.Sequences as sequences;
ghost use Rattle.c_resolution.specs.Simple as spec;

use c_calls::arguments::pointer_value;
use c_calls::calls::call;
use c_expressions::cuts::Cuts;
use c_expressions::expressions::expression;
use c_expressions::operators::{binary_operator, working_type};
use c_expressions::sequences::behind_cuts;
use c_expressions::targets::target;
use c_program::tree as resolved;
use c_program::types::expression_type;
use c_rules::fault::Rule;
use c_rules::findings::{Findings, place};
use c_rules::names::{Gives, Scope};
use c_token::Constant;
use c_tree::{
    AssignmentOperator, BinaryOperator, Direction, Expression, Form, Place, Returned, SimpleForm,
    SimpleStatement,
};
use hls_ints::CType;
use std::alloc::{AllocError, Global};

/// The operator of a compound assignment (C99 6.5.16): no comparison, and no short circuit.
fn compound_operator(operator: BinaryOperator) -> Option<resolved::BinaryOperator>
    ensures { result ≡ spec.compound_operator operator }
{
    match binary_operator(operator) {
        Some(
            resolved::BinaryOperator::Less
            | resolved::BinaryOperator::Greater
            | resolved::BinaryOperator::LessEqual
            | resolved::BinaryOperator::GreaterEqual
            | resolved::BinaryOperator::Equal
            | resolved::BinaryOperator::NotEqual,
        ) => None,
        other => other,
    }
}

/// A compound assignment behind its cuts.
fn updated(
    alloc: Global,
    offset: usize,
    cuts: Cuts,
    target: Box<resolved::Place>,
    operator: resolved::BinaryOperator,
    right: resolved::Expression,
) -> Result<Box<resolved::Statement>, AllocError>
    ensures { IfOk result (λ s. boxed_statement_of s ≡ spec.updated offset (cut (cuts_of cuts) (place_of (box_value target))) operator (expression_of right)) }
{
    let held = match &*target {
        resolved::Place::Scalar(_, _, ty) => *ty,
        resolved::Place::Element(_, _, _, ty, _) => *ty,
    };
    let ty = working_type(operator, held, expression_type(&right));
    let right = Box::new(alloc, right)?;
    let last = resolved::Statement::Update(place(offset), target, operator, ty, right);
    behind_cuts(alloc, cuts.before, last)
}

/// An assignment, simple or compound: the right side is evaluated first, then the indices of what is assigned to.
#[tactic(auto, unfolding(c_resolution::specs::Simple::assigned, c_resolution::specs::Simple::compound, c_resolution::specs::Simple::compound_by))]
fn assign(
    alloc: Global,
    scope: &Scope<'_>,
    found: &mut Findings,
    offset: usize,
    assigned: &Place,
    operator: AssignmentOperator,
    value: &Expression,
) -> Result<Box<resolved::Statement>, AllocError>
    ensures { Walks boxed_statement_of (spec.assign scope.now offset assigned.now operator value.now found.old) result found.new }
{
    let at = place(offset);
    let mut cuts = Cuts::free_from(alloc, scope.kept_from);
    let right = expression(alloc, scope, found, &mut cuts, at, value)?;
    let target = target(alloc, scope, found, &mut cuts, at, assigned)?;
    match operator {
        AssignmentOperator::Set => {
            let right = Box::new(alloc, right)?;
            let last = resolved::Statement::Assign(at, target, right);
            behind_cuts(alloc, cuts.before, last)
        }
        AssignmentOperator::Compound(operator) => match compound_operator(operator) {
            Some(operator) => updated(alloc, offset, cuts, target, operator, right),
            None => {
                found.add(Rule::Place, offset);
                resolved::Statement::Empty.boxed(alloc)
            }
        },
    }
}

/// `++` or `--`.
#[tactic(auto, unfolding(c_resolution::specs::Simple::step))]
fn step(
    alloc: Global,
    scope: &Scope<'_>,
    found: &mut Findings,
    offset: usize,
    stepped: &Place,
    direction: Direction,
) -> Result<Box<resolved::Statement>, AllocError>
    ensures { Walks boxed_statement_of (spec.step scope.now offset stepped.now direction found.old) result found.new }
{
    let mut cuts = Cuts::free_from(alloc, scope.kept_from);
    let target = target(alloc, scope, found, &mut cuts, place(offset), stepped)?;
    let operator = match direction {
        Direction::Up => resolved::BinaryOperator::Add,
        Direction::Down => resolved::BinaryOperator::Subtract,
    };
    let one = resolved::Expression::Constant(CType::INT, 1);
    updated(alloc, offset, cuts, target, operator, one)
}

/// A simple statement.
#[tactic(auto, unfolding(c_resolution::specs::Simple::simple))]
pub fn simple(
    alloc: Global,
    scope: &Scope<'_>,
    found: &mut Findings,
    statement: &SimpleStatement,
) -> Result<Box<resolved::Statement>, AllocError>
    ensures { Walks boxed_statement_of (spec.simple scope.now statement.now found.old) result found.new }
{
    let offset = statement.offset;
    match &statement.form {
        SimpleForm::Assign(place, operator, value) => {
            assign(alloc, scope, found, offset, place, *operator, value.get())
        }
        SimpleForm::Step(place, direction) => step(alloc, scope, found, offset, place, *direction),
        SimpleForm::Call(inner) => call(alloc, scope, found, place(offset), inner),
    }
}

/// Whether the expression is the constant 0.
fn is_zero(e: &Expression) -> bool
    ensures { result ≡ spec.is_zero e.now }
{
    match &e.form {
        Form::Constant(Constant::Typed(value, _), _) => *value == 0,
        _ => false,
    }
}

/// Whether a function that gives so may return so.
fn may_return(gives: Gives, value: &Returned) -> bool
    ensures { result ≡ spec.may_return gives value.now }
{
    match (gives, value) {
        (Gives::Unlisted, _) => true,
        (Gives::Nothing, Returned::Nothing) => true,
        (Gives::Integer, Returned::Value(_)) => true,
        (Gives::Pointer, Returned::Pointer(_)) => true,
        (Gives::Pointer, Returned::Value(e)) => is_zero(e.get()),
        _ => false,
    }
}

/// A return of a value behind its cuts.
fn given_back(
    alloc: Global,
    at: u32,
    cuts: Cuts,
    right: resolved::Expression,
) -> Result<Box<resolved::Statement>, AllocError>
    ensures { IfOk result (λ s. boxed_statement_of s ≡ sequences.behind_cuts (cuts_of cuts).before (tree.Statement.Return at (Some (expression_of right)))) }
{
    let right = Box::new(alloc, right)?;
    behind_cuts(
        alloc,
        cuts.before,
        resolved::Statement::Return(at, Some(right)),
    )
}

/// A return, whose word stands at the offset.
#[tactic(auto, unfolding(c_resolution::specs::Simple::returned))]
pub fn returned(
    alloc: Global,
    scope: &Scope<'_>,
    found: &mut Findings,
    value: &Returned,
    offset: usize,
) -> Result<Box<resolved::Statement>, AllocError>
    ensures { Walks boxed_statement_of (spec.returned scope.now value.now offset found.old) result found.new }
{
    found.add_if(!may_return(scope.gives, value), Rule::Kind, offset);
    let at = place(offset);
    let mut cuts = Cuts::free_from(alloc, scope.kept_from);
    match value {
        Returned::Nothing => resolved::Statement::Return(at, None).boxed(alloc),
        Returned::Value(e) => {
            let right = expression(alloc, scope, found, &mut cuts, at, e.get())?;
            given_back(alloc, at, cuts, right)
        }
        Returned::Pointer(inner) => {
            let right = pointer_value(alloc, scope, found, &mut cuts, at, inner)?;
            given_back(alloc, at, cuts, right)
        }
    }
}

/// A `break`, whose word stands at the offset.
#[tactic(auto, unfolding(c_resolution::specs::Simple::check_break))]
pub fn check_break(scope: &Scope<'_>, found: &mut Findings, offset: usize)
    ensures { spec.check_break scope.now offset found.old ≡ Outcome.Gives tt found.new }
{
    found.add_if(scope.exits == 0, Rule::Place, offset);
}

/// A `continue`, whose word stands at the offset.
#[tactic(auto, unfolding(c_resolution::specs::Simple::check_continue))]
pub fn check_continue(scope: &Scope<'_>, found: &mut Findings, offset: usize)
    ensures { spec.check_continue scope.now offset found.old ≡ Outcome.Gives tt found.new }
{
    found.add_if(scope.loops == 0, Rule::Place, offset);
}
