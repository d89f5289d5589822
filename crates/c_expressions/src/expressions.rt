// Expressions and conditions (C99 6.5, 6.8.4). What is evaluated before a step is added to its cuts; the step itself stands at the place `at`.

ghost use Rattle.std.specs.Prelude.{◌≡◌, map, option_map, box_value, IfOk};
ghost use Rattle.c_program.specs.Plain.{boxed_statement_of, expression_of, expressions_of};
ghost use Rattle.c_program.specs.Tree.{Expression as ResolvedExpression};
ghost use Rattle.c_rules.specs.Walks.{Walks};
ghost use Rattle.c_expressions.specs.Chosen.{chosen_of};
ghost use Rattle.c_expressions.specs.Cuts.{cut, cuts_of};
ghost use Rattle.c_expressions.specs.Expressions as spec;

use crate::callees::{function_name, misplaced, number_of, value_type};
use crate::choices::{Chosen, are_short_circuits, conditional, joined, test};
use crate::cuts::Cuts;
use crate::objects::{dimensions_of, is_argument, misuse, named_value, variable_of};
use crate::operators::{constant, converted, is_long, nothing, operated, unary};
use c_program::tree as resolved;
use c_rules::dimensions::Dimensions;
use c_rules::fault::Rule;
use c_rules::findings::{Findings, place};
use c_rules::names::Scope;
use c_rules::specifiers::plain_integer;
use c_tree::{Argument, Call, Choice, Expression, Form, Term, UnaryOperator};
use hls_ints::CType;
use std::alloc::{AllocError, Global};

/// An operand of a conditional, which keeps values in the locals from the slot on.
#[cycle(expressions)]
fn operand(
    alloc: Global,
    scope: &Scope<'_>,
    found: &mut Findings,
    slot: u32,
    e: &Expression,
) -> Result<Chosen, AllocError>
    ensures { Walks chosen_of (spec.operand_value slot (spec.meant scope.now e.now) found.old) result found.new }
{
    let offset = place(e.offset);
    let mut cuts = Cuts::free_from(alloc, slot);
    let rest = value(alloc, scope, found, &mut cuts, offset, &e.form)?;
    Chosen::new(alloc, offset, cuts, rest)
}

/// The number of an element of an array of several dimensions: of a row, and in the row (C99 6.5.2.1).
fn row(
    alloc: Global,
    outer: resolved::Expression,
    outer_length: u64,
    inner: resolved::Expression,
    inner_length: u64,
) -> Result<resolved::Expression, AllocError>
    ensures { IfOk result (λ e. expression_of e ≡ ResolvedExpression.Row (expression_of outer) outer_length (expression_of inner) inner_length) }
{
    let outer = Box::new(alloc, outer)?;
    let inner = Box::new(alloc, inner)?;
    Ok(resolved::Expression::Row(outer, outer_length, inner, inner_length))
}

/// The number of an element of an object of the dimensions, in row order (C99 6.5.2.1); none where there are not as many indices, and none of a scalar.
#[cycle(expressions)]
#[tactic(auto, unfolding(crate::specs::Expressions::element_number, crate::specs::Expressions::no_number))]
pub fn element_number(
    alloc: Global,
    scope: &Scope<'_>,
    found: &mut Findings,
    cuts: &mut Cuts,
    at: u32,
    dimensions: Dimensions,
    indices: &[Expression],
) -> Result<Option<Box<resolved::Expression>>, AllocError>
    ensures { Walks (λ n. cut (cuts_of cuts.new) (option_map (λ e. expression_of (box_value e)) n))
        (spec.element_number dimensions (map (spec.meant scope.now) indices.now) at (cuts_of cuts.old) found.old) result found.new }
{
    match dimensions {
        Dimensions::Scalar => {}
        Dimensions::One(_) => {
            if let [i] = indices {
                let i = value(alloc, scope, found, cuts, at, &i.form)?;
                return Ok(Some(Box::new(alloc, i)?));
            }
        }
        Dimensions::Two(rows, columns) => {
            if let [i, j] = indices {
                let i = value(alloc, scope, found, cuts, at, &i.form)?;
                let j = value(alloc, scope, found, cuts, at, &j.form)?;
                let number = row(alloc, i, rows, j, columns)?;
                return Ok(Some(Box::new(alloc, number)?));
            }
        }
        Dimensions::Three(planes, rows, columns) => {
            if let [i, j, k] = indices {
                let i = value(alloc, scope, found, cuts, at, &i.form)?;
                let j = value(alloc, scope, found, cuts, at, &j.form)?;
                let outer = row(alloc, i, planes, j, rows)?;
                let k = value(alloc, scope, found, cuts, at, &k.form)?;
                let number = row(alloc, outer, planes.saturating_mul(rows), k, columns)?;
                return Ok(Some(Box::new(alloc, number)?));
            }
        }
    }
    for index in indices {
        operand(alloc, scope, found, 0, index)?;
    }
    Ok(None)
}

/// Operators and their right operands behind a value.
#[cycle(expressions)]
#[tactic(auto, unfolding(crate::specs::Expressions::terms_value))]
fn terms(
    alloc: Global,
    scope: &Scope<'_>,
    found: &mut Findings,
    cuts: &mut Cuts,
    at: u32,
    terms: &[Term],
    first: resolved::Expression,
) -> Result<resolved::Expression, AllocError>
    ensures { Walks (λ e. cut (cuts_of cuts.new) (expression_of e))
        (spec.terms_value scope.now at (cut (cuts_of cuts.old) (expression_of first)) (map (spec.term scope.now) terms.now) found.old) result found.new }
{
    let mut left = first;
    for term in terms {
        let right = value(alloc, scope, found, cuts, at, &term.operand.form)?;
        left = operated(alloc, term.operator, left, right)?;
    }
    Ok(left)
}

/// Looks at an argument of a call for the faults in it.
#[cycle(expressions)]
pub fn look_at_argument(
    alloc: Global,
    scope: &Scope<'_>,
    found: &mut Findings,
    argument: &Argument,
) -> Result<(), AllocError>
    ensures { Walks (λ x. x) (spec.looked_argument scope.now argument.now found.old) result found.new }
{
    match argument {
        Argument::Value(e) => {
            operand(alloc, scope, found, 0, e.get())?;
        }
        Argument::Text(_, _) => {}
        Argument::Address(place, _) => {
            for index in place.indices.as_slice() {
                operand(alloc, scope, found, 0, index)?;
            }
        }
        Argument::Pointer(pointer) => {
            if let Some(e) = &pointer.operand {
                operand(alloc, scope, found, 0, e.get())?;
            }
        }
    }
    Ok(())
}

/// Looks at the arguments of a call for the faults in them.
#[cycle(expressions)]
pub fn look_at_arguments(
    alloc: Global,
    scope: &Scope<'_>,
    found: &mut Findings,
    arguments: &[Argument],
) -> Result<(), AllocError>
    ensures { Walks (λ x. x) (spec.arguments scope.now arguments.now found.old) result found.new }
{
    for argument in arguments {
        look_at_argument(alloc, scope, found, argument)?;
    }
    Ok(())
}

/// The place of an argument's first byte.
pub fn argument_offset(argument: &Argument) -> usize
    ensures { result ≡ spec.argument_offset argument.now }
{
    match argument {
        Argument::Value(value) => value.get().offset,
        Argument::Text(_, offset) => *offset,
        Argument::Address(_, offset) => *offset,
        Argument::Pointer(pointer) => pointer.offset,
    }
}

/// The values of the arguments of a call of a function of the text, each an integer.
#[cycle(expressions)]
#[tactic(auto, unfolding(crate::specs::Expressions::all_values, crate::specs::Expressions::refused_value))]
pub fn argument_values(
    alloc: Global,
    scope: &Scope<'_>,
    found: &mut Findings,
    cuts: &mut Cuts,
    at: u32,
    arguments: &[Argument],
) -> Result<Vec<resolved::Expression>, AllocError>
    ensures { Walks (λ v. cut (cuts_of cuts.new) (expressions_of v.items)) (spec.all_passed scope.now arguments.now at (cuts_of cuts.old) found.old) result found.new }
{
    let mut values = Vec::new(alloc);
    for argument in arguments {
        match argument {
            Argument::Value(e) => {
                let passed = value(alloc, scope, found, cuts, at, &e.get().form)?;
                values.push(passed)?;
            }
            Argument::Text(_, _) | Argument::Address(_, _) | Argument::Pointer(_) => {
                found.add(Rule::Kind, argument_offset(argument));
                look_at_argument(alloc, scope, found, argument)?;
                values.push(nothing())?;
            }
        }
    }
    Ok(values)
}

/// The value of a call, whose function is entered at the place.
#[cycle(expressions)]
#[tactic(auto, unfolding(crate::specs::Expressions::function_value, crate::specs::Expressions::no_value))]
fn call(
    alloc: Global,
    scope: &Scope<'_>,
    found: &mut Findings,
    cuts: &mut Cuts,
    at: u32,
    call: &Call,
) -> Result<resolved::Expression, AllocError>
    ensures { Walks (λ e. cut (cuts_of cuts.new) (expression_of e)) (spec.call_value scope.now (spec.called scope.now call.now) at (cuts_of cuts.old) found.old) result found.new }
{
    let known = scope.look_up(call.name.bytes.as_slice());
    let offset = call.name.offset;
    let arguments = call.arguments.as_slice();
    let Some(number) = number_of(known) else {
        misplaced(scope, found, known, arguments.len(), offset);
        look_at_arguments(alloc, scope, found, arguments)?;
        return Ok(nothing());
    };
    let definition = function_name(scope, found, number, arguments.len(), true, offset)?;
    let slot = cuts.next;
    let values = argument_values(alloc, scope, found, cuts, at, arguments)?;
    let Some(function) = definition else {
        return Ok(nothing());
    };
    let entered = resolved::Statement::Call(at, Some(slot), function, values).boxed(alloc)?;
    cuts.keep(slot, entered)?;
    Ok(resolved::Expression::Kept(slot, value_type(scope, number)))
}

/// Conditionals with the first operand of the innermost one.
#[cycle(expressions)]
#[tactic(auto, unfolding(crate::specs::Expressions::further_choices))]
fn choices(
    alloc: Global,
    scope: &Scope<'_>,
    found: &mut Findings,
    slot: u32,
    choices: &[Choice],
    first: Chosen,
) -> Result<Chosen, AllocError>
    ensures { Walks chosen_of (spec.further_choices scope.now slot (chosen_of first) (map (spec.choice scope.now) choices.now) found.old) result found.new }
{
    let mut chosen = first;
    for choice in choices {
        let test = condition(alloc, scope, found, slot, &choice.condition)?;
        let other = operand(alloc, scope, found, slot, &choice.otherwise)?;
        let offset = place(choice.condition.offset);
        chosen = conditional(alloc, slot, offset, test, chosen, other)?;
    }
    Ok(chosen)
}

/// Short circuits and their right operands behind a condition.
#[cycle(expressions)]
#[tactic(auto, unfolding(crate::specs::Expressions::terms_condition))]
fn short_circuits(
    alloc: Global,
    scope: &Scope<'_>,
    found: &mut Findings,
    slot: u32,
    terms: &[Term],
    first: Box<resolved::Statement>,
) -> Result<Box<resolved::Statement>, AllocError>
    ensures { Walks boxed_statement_of (spec.terms_condition scope.now slot (boxed_statement_of first) (map (spec.term scope.now) terms.now) found.old) result found.new }
{
    let mut whole = first;
    for term in terms {
        let second = condition(alloc, scope, found, slot, &term.operand)?;
        whole = joined(alloc, term.operator, whole, second)?;
    }
    Ok(whole)
}

/// What an expression is as a condition, which keeps values in the locals from the slot on.
#[cycle(expressions)]
pub fn condition(
    alloc: Global,
    scope: &Scope<'_>,
    found: &mut Findings,
    slot: u32,
    e: &Expression,
) -> Result<Box<resolved::Statement>, AllocError>
    ensures { Walks boxed_statement_of (spec.condition scope.now e.now slot found.old) result found.new }
{
    let offset = place(e.offset);
    let mut cuts = Cuts::free_from(alloc, slot);
    match &e.form {
        Form::Unary(operator, inner) => {
            if matches!(operator, UnaryOperator::Not) {
                let inner = condition(alloc, scope, found, slot, inner.get())?;
                return resolved::Statement::Opposite(inner).boxed(alloc);
            }
            let rest = value(alloc, scope, found, &mut cuts, offset, &e.form)?;
            test(alloc, offset, cuts, rest)
        }
        Form::Binary(first, more) => {
            let more = more.as_slice();
            if are_short_circuits(more) {
                let first = condition(alloc, scope, found, slot, first.get())?;
                return short_circuits(alloc, scope, found, slot, more, first);
            }
            let rest = value(alloc, scope, found, &mut cuts, offset, &e.form)?;
            test(alloc, offset, cuts, rest)
        }
        Form::Constant(_, _)
        | Form::Place(_)
        | Form::Call(_)
        | Form::Cast(_, _)
        | Form::Conditional(_, _) => {
            let rest = value(alloc, scope, found, &mut cuts, offset, &e.form)?;
            test(alloc, offset, cuts, rest)
        }
    }
}

/// The value of an expression of that form, in the step at the place.
#[cycle(expressions)]
#[tactic(auto, unfolding(crate::specs::Expressions::place_value, crate::specs::Expressions::cast))]
fn value(
    alloc: Global,
    scope: &Scope<'_>,
    found: &mut Findings,
    cuts: &mut Cuts,
    at: u32,
    form: &Form,
) -> Result<resolved::Expression, AllocError>
    ensures { Walks (λ x. cut (cuts_of cuts.new) (expression_of x)) ((spec.formed scope.now form.now).value at (cuts_of cuts.old) found.old) result found.new }
{
    match form {
        Form::Constant(value, offset) => Ok(constant(found, *value, *offset)),
        Form::Place(place) => {
            let known = scope.look_up(place.name.bytes.as_slice());
            let indices = place.indices.as_slice();
            let variable = variable_of(known);
            let dimensions = dimensions_of(variable);
            let number = element_number(alloc, scope, found, cuts, at, dimensions, indices)?;
            found.add_any(misuse(known, indices.len()), place.name.offset);
            Ok(named_value(variable, number))
        }
        Form::Call(inner) => call(alloc, scope, found, cuts, at, inner),
        Form::Unary(operator, inner) => {
            let operand = value(alloc, scope, found, cuts, at, &inner.get().form)?;
            unary(alloc, *operator, operand)
        }
        Form::Cast(specifiers, inner) => {
            let ty = plain_integer(specifiers);
            let inner = inner.get();
            let operand = if is_long(ty) && is_argument(scope, inner) {
                resolved::Expression::Variable(resolved::Storage::Automatic, 0, CType::LONG)
            } else {
                value(alloc, scope, found, cuts, at, &inner.form)?
            };
            converted(alloc, found, specifiers.offset, ty, operand)
        }
        Form::Binary(first, more) => {
            let more = more.as_slice();
            let slot = cuts.next;
            if are_short_circuits(more) {
                let first = condition(alloc, scope, found, slot, first.get())?;
                let whole = short_circuits(alloc, scope, found, slot, more, first)?;
                cuts.keep(slot, resolved::Statement::Truth(slot, whole).boxed(alloc)?)?;
                return Ok(resolved::Expression::Kept(slot, CType::INT));
            }
            let first = value(alloc, scope, found, cuts, at, &first.get().form)?;
            terms(alloc, scope, found, cuts, at, more, first)
        }
        Form::Conditional(first, outer) => {
            let slot = cuts.next;
            let first = operand(alloc, scope, found, slot, first.get())?;
            let chosen = choices(alloc, scope, found, slot, outer.as_slice(), first)?;
            cuts.keep_all(slot, chosen.before)?;
            Ok(Box::into_inner(chosen.rest))
        }
    }
}

/// The value of an expression of the step at the place.
pub fn expression(
    alloc: Global,
    scope: &Scope<'_>,
    found: &mut Findings,
    cuts: &mut Cuts,
    at: u32,
    e: &Expression,
) -> Result<resolved::Expression, AllocError>
    ensures { Walks (λ x. cut (cuts_of cuts.new) (expression_of x)) (spec.value scope.now e.now at (cuts_of cuts.old) found.old) result found.new }
{
    value(alloc, scope, found, cuts, at, &e.form)
}

/// Looks at an expression for the faults in it.
pub fn look_through(
    alloc: Global,
    scope: &Scope<'_>,
    found: &mut Findings,
    e: &Expression,
) -> Result<(), AllocError>
    ensures { Walks (λ x. x) (spec.looked scope.now e.now found.old) result found.new }
{
    operand(alloc, scope, found, 0, e)?;
    Ok(())
}
