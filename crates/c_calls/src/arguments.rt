// Arguments by the form that a call has at their place (C99 6.5.2.2, POSIX pthread.h).

ghost use Rattle.std.specs.Prelude.{◌≡◌, box_value, option_map};
ghost use Rattle.std.specs.Option.{option_copied};
ghost use Rattle.c_program.specs.Plain.{expression_of, object_place_of};
ghost use Rattle.c_rules.specs.Walks.{Outcome, Walks};
ghost use Rattle.c_expressions.specs.Cuts.{cut, cuts_of};
ghost use Rattle.c_calls.specs.Arguments as spec;

use c_expressions::callees::{is_unknown, is_usable};
use c_expressions::cuts::Cuts;
use c_expressions::expressions::{argument_offset, element_number, expression, look_at_argument};
use c_program::tree as resolved;
use c_rules::dimensions::Dimensions;
use c_rules::fault::Rule;
use c_rules::findings::Findings;
use c_rules::names::{Header, Known, Meaning, Object, ObjectKind, Scope};
use c_tree::{Argument, Form, Name, Place, Pointer};
use hls_ints::CType;
use std::alloc::{AllocError, Global};

/// The null pointer's value as a long.
pub fn null() -> resolved::Expression
    ensures { expression_of result ≡ spec.null }
{
    resolved::Expression::Constant(CType::LONG, 0)
}

/// An argument of another form than the call has.
#[tactic(auto, unfolding(crate::specs::Arguments::refused))]
fn refuse(
    alloc: Global,
    scope: &Scope<'_>,
    found: &mut Findings,
    argument: &Argument,
) -> Result<(), AllocError>
    ensures { Walks (λ x. x) (spec.refused scope.now argument.now found.old) result found.new }
{
    found.add(Rule::Kind, argument_offset(argument));
    look_at_argument(alloc, scope, found, argument)
}

/// An argument that is no start routine, and is of another form than the call has, or not.
#[tactic(auto, unfolding(crate::specs::Arguments::refused_routine))]
fn refused_routine(
    alloc: Global,
    scope: &Scope<'_>,
    found: &mut Findings,
    is_other: bool,
    argument: &Argument,
) -> Result<Option<(u32, usize)>, AllocError>
    ensures { Walks (λ r. r) (spec.refused_routine scope.now is_other argument.now found.old) result found.new }
{
    found.add_if(is_other, Rule::Kind, argument_offset(argument));
    look_at_argument(alloc, scope, found, argument)?;
    Ok(None)
}

/// An argument that is an integer.
#[tactic(auto, unfolding(crate::specs::Arguments::value_argument, crate::specs::Arguments::refused_value))]
pub fn value_argument(
    alloc: Global,
    scope: &Scope<'_>,
    found: &mut Findings,
    cuts: &mut Cuts,
    at: u32,
    argument: &Argument,
) -> Result<resolved::Expression, AllocError>
    ensures { Walks (λ e. cut (cuts_of cuts.new) (expression_of e)) (spec.value_argument scope.now argument.now at (cuts_of cuts.old) found.old) result found.new }
{
    match argument {
        Argument::Value(value) => expression(alloc, scope, found, cuts, at, value.get()),
        _ => {
            refuse(alloc, scope, found, argument)?;
            Ok(null())
        }
    }
}

/// `NULL`.
#[tactic(auto, unfolding(crate::specs::Arguments::null_argument))]
pub fn null_argument(
    alloc: Global,
    scope: &Scope<'_>,
    found: &mut Findings,
    argument: &Argument,
) -> Result<(), AllocError>
    ensures { Walks (λ x. x) (spec.null_argument scope.now argument.now found.old) result found.new }
{
    match argument {
        Argument::Pointer(pointer) if pointer.operand.is_none() => Ok(()),
        _ => refuse(alloc, scope, found, argument),
    }
}

/// The value of a pointer, as an integer.
#[tactic(auto, unfolding(crate::specs::Arguments::pointer_value))]
pub fn pointer_value(
    alloc: Global,
    scope: &Scope<'_>,
    found: &mut Findings,
    cuts: &mut Cuts,
    at: u32,
    pointer: &Pointer,
) -> Result<resolved::Expression, AllocError>
    ensures { Walks (λ e. cut (cuts_of cuts.new) (expression_of e)) (spec.pointer_value scope.now pointer.now at (cuts_of cuts.old) found.old) result found.new }
{
    match &pointer.operand {
        Some(operand) => expression(alloc, scope, found, cuts, at, operand.get()),
        None => Ok(null()),
    }
}

/// `NULL` or `(void *)` and a value.
#[tactic(auto, unfolding(crate::specs::Arguments::pointer_argument, crate::specs::Arguments::refused_value))]
pub fn pointer_argument(
    alloc: Global,
    scope: &Scope<'_>,
    found: &mut Findings,
    cuts: &mut Cuts,
    at: u32,
    argument: &Argument,
) -> Result<resolved::Expression, AllocError>
    ensures { Walks (λ e. cut (cuts_of cuts.new) (expression_of e)) (spec.pointer_argument scope.now argument.now at (cuts_of cuts.old) found.old) result found.new }
{
    match argument {
        Argument::Pointer(pointer) => pointer_value(alloc, scope, found, cuts, at, pointer),
        _ => {
            refuse(alloc, scope, found, argument)?;
            Ok(null())
        }
    }
}

/// The object of the kind that a name stands for, if it is one.
fn object_of(kind: ObjectKind, known: Known) -> Option<Object>
    ensures { result ≡ spec.object_of kind known }
{
    match known {
        Known::Declared(Meaning::Object(object)) => {
            if kind.is(object.kind) {
                Some(object)
            } else {
                None
            }
        }
        _ => None,
    }
}

/// The dimensions of an object: an array of objects has one.
fn object_dimensions(object: Option<Object>) -> Dimensions
    ensures { result ≡ spec.object_dimensions object }
{
    match object {
        Some(
            Object {
                length: Some(length),
                ..
            },
        ) => Dimensions::One(length),
        _ => Dimensions::Scalar,
    }
}

/// An object, or the element of the number.
fn placed(object: Object, number: Option<Box<resolved::Expression>>) -> resolved::ObjectPlace
    ensures { object_place_of result ≡ spec.placed object object.length (option_map (λ e. expression_of (box_value e)) number) }
{
    match (object.length, number) {
        (Some(length), Some(number)) => {
            resolved::ObjectPlace::Element(object.number, length, number)
        }
        _ => resolved::ObjectPlace::Single(object.number),
    }
}

/// What a name of no object of the kind breaks; the argument's first byte is at the offset.
#[tactic(auto, unfolding(crate::specs::Arguments::misused_object))]
fn misused_object(
    found: &mut Findings,
    known: Known,
    name: &Name,
    offset: usize,
) -> resolved::ObjectPlace
    ensures { spec.misused_object known name.now.offset offset found.old ≡ Outcome.Gives (object_place_of result) found.new }
{
    found.add_if(is_unknown(known), Rule::Unknown, name.offset);
    found.add_if(is_usable(known), Rule::Kind, offset);
    resolved::ObjectPlace::Single(u32::MAX)
}

/// A place of an object of the kind; the argument's first byte is at the offset.
#[tactic(auto, unfolding(crate::specs::Arguments::object_place, crate::specs::Arguments::object_named, crate::specs::Arguments::object_at))]
fn object_place(
    alloc: Global,
    scope: &Scope<'_>,
    found: &mut Findings,
    cuts: &mut Cuts,
    at: u32,
    kind: ObjectKind,
    place: &Place,
    offset: usize,
) -> Result<resolved::ObjectPlace, AllocError>
    ensures { Walks (λ p. cut (cuts_of cuts.new) (object_place_of p)) (spec.object_place scope.now kind place.now offset at (cuts_of cuts.old) found.old) result found.new }
{
    let known = scope.look_up(place.name.bytes.as_slice());
    let object = object_of(kind, known);
    let dimensions = object_dimensions(object);
    let indices = place.indices.as_slice();
    let number = element_number(alloc, scope, found, cuts, at, dimensions, indices)?;
    let Some(object) = object else {
        return Ok(misused_object(found, known, &place.name, offset));
    };
    let is_other = dimensions.count() != indices.len();
    found.add_if(is_other, Rule::Kind, place.name.offset);
    Ok(placed(object, number))
}

/// `&` and an object of the kind.
#[tactic(auto, unfolding(crate::specs::Arguments::address_argument, crate::specs::Arguments::refused_object))]
pub fn address_argument(
    alloc: Global,
    scope: &Scope<'_>,
    found: &mut Findings,
    cuts: &mut Cuts,
    at: u32,
    kind: ObjectKind,
    argument: &Argument,
) -> Result<resolved::ObjectPlace, AllocError>
    ensures { Walks (λ p. cut (cuts_of cuts.new) (object_place_of p)) (spec.address_argument scope.now kind argument.now at (cuts_of cuts.old) found.old) result found.new }
{
    match argument {
        Argument::Address(place, offset) => {
            object_place(alloc, scope, found, cuts, at, kind, place, *offset)
        }
        _ => {
            refuse(alloc, scope, found, argument)?;
            Ok(resolved::ObjectPlace::Single(u32::MAX))
        }
    }
}

/// The place that an argument is, and where the argument begins.
fn place_in(argument: &Argument) -> Option<(&Place, usize)>
    ensures { option_map (λ r. (r.0.now, r.1)) result ≡ spec.place_in_argument argument.now }
{
    let Argument::Value(value) = argument else {
        return None;
    };
    let value = value.get();
    match &value.form {
        Form::Place(place) => Some((place, value.offset)),
        _ => None,
    }
}

/// A thread by its name.
#[tactic(auto, unfolding(crate::specs::Arguments::thread_argument, crate::specs::Arguments::refused_object))]
pub fn thread_argument(
    alloc: Global,
    scope: &Scope<'_>,
    found: &mut Findings,
    cuts: &mut Cuts,
    at: u32,
    argument: &Argument,
) -> Result<resolved::ObjectPlace, AllocError>
    ensures { Walks (λ p. cut (cuts_of cuts.new) (object_place_of p)) (spec.thread_argument scope.now argument.now at (cuts_of cuts.old) found.old) result found.new }
{
    match place_in(argument) {
        Some((place, offset)) => {
            object_place(
                alloc,
                scope,
                found,
                cuts,
                at,
                ObjectKind::Thread,
                place,
                offset,
            )
        }
        None => {
            refuse(alloc, scope, found, argument)?;
            Ok(resolved::ObjectPlace::Single(u32::MAX))
        }
    }
}

/// The header of the function that a place without index names.
fn header_at<'s>(scope: &'s Scope<'_>, place: &Place) -> Option<&'s Header>
    ensures { option_copied result ≡ spec.header_at scope.now place.now }
{
    if place.indices.len() != 0 {
        return None;
    }
    match scope.look_up(place.name.bytes.as_slice()) {
        Known::Declared(Meaning::Function(number)) => scope.headers.get(number),
        _ => None,
    }
}

/// The name of a start routine: the number of its definition, and the name's place.
#[tactic(auto, unfolding(crate::specs::Arguments::routine_argument, crate::specs::Arguments::routine))]
pub fn routine_argument(
    alloc: Global,
    scope: &Scope<'_>,
    found: &mut Findings,
    argument: &Argument,
) -> Result<Option<(u32, usize)>, AllocError>
    ensures { Walks (λ r. r) (spec.routine_argument scope.now argument.now found.old) result found.new }
{
    let Some((place, offset)) = place_in(argument) else {
        return refused_routine(alloc, scope, found, true, argument);
    };
    let Some(header) = header_at(scope, place) else {
        let is_unnamed = place.indices.len() == 0
            && is_unknown(scope.look_up(place.name.bytes.as_slice()));
        return refused_routine(alloc, scope, found, !is_unnamed, argument);
    };
    let name_offset = place.name.offset;
    found.add_if(!header.is_start_routine(), Rule::Kind, offset);
    found.add_if(header.definition.is_none(), Rule::Unknown, name_offset);
    match header.definition {
        Some(number) => Ok(Some((number, name_offset))),
        None => Ok(None),
    }
}
