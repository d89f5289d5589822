// What is assigned to (C99 6.5.16).

ghost use Rattle.std.specs.Prelude.{◌≡◌, box_value, option_map};
ghost use Rattle.c_program.specs.Plain.{expression_of, place_of};
ghost use Rattle.c_rules.specs.Walks.{Walks};
ghost use Rattle.c_expressions.specs.Cuts.{cut, cuts_of};
ghost use Rattle.c_expressions.specs.Targets as spec;

use crate::cuts::Cuts;
use crate::expressions::element_number;
use crate::objects::{dimensions_of, variable_of};
use c_program::tree as resolved;
use c_rules::fault::Rule;
use c_rules::findings::Findings;
use c_rules::names::{Known, Meaning, Scope, Variable};
use c_tree::Place;
use hls_ints::CType;
use std::alloc::{AllocError, Global};

/// The rule that is broken where a name with so many indices may not be assigned to.
fn target_fault(known: Known, indices: usize) -> Option<Rule>
    ensures { result ≡ spec.target_fault known indices }
{
    match known {
        Known::Declared(Meaning::Variable(variable)) => {
            if !variable.is_const && variable.dimensions.count() == indices {
                None
            } else {
                Some(Rule::Kind)
            }
        }
        Known::Declared(Meaning::Unusable) => None,
        Known::Unknown => Some(Rule::Unknown),
        _ => Some(Rule::Kind),
    }
}

/// A scalar, or the element of the number.
fn named_place(
    variable: Option<Variable>,
    number: Option<Box<resolved::Expression>>,
) -> resolved::Place
    ensures { place_of result ≡ spec.named_place variable (option_map (λ n. expression_of (box_value n)) number) }
{
    let Some(variable) = variable else {
        return resolved::Place::Scalar(resolved::Storage::Automatic, 0, CType::INT);
    };
    let ty = variable.ty.c_type();
    match number {
        None => resolved::Place::Scalar(variable.storage, variable.number, ty),
        Some(number) => {
            let length = variable.dimensions.elements();
            resolved::Place::Element(variable.storage, variable.number, length, ty, number)
        }
    }
}

/// A place that is assigned to by the step at the place of the text; the cuts of its indices go behind the others.
#[tactic(auto, unfolding(crate::specs::Targets::target))]
pub fn target(
    alloc: Global,
    scope: &Scope<'_>,
    found: &mut Findings,
    cuts: &mut Cuts,
    at: u32,
    place: &Place,
) -> Result<Box<resolved::Place>, AllocError>
    ensures { Walks (λ p. cut (cuts_of cuts.new) (place_of (box_value p))) (spec.target scope.now place.now at (cuts_of cuts.old) found.old) result found.new }
{
    let known = scope.look_up(place.name.bytes.as_slice());
    let indices = place.indices.as_slice();
    let variable = variable_of(known);
    let dimensions = dimensions_of(variable);
    let number = element_number(alloc, scope, found, cuts, at, dimensions, indices)?;
    found.add_any(target_fault(known, indices.len()), place.name.offset);
    Ok(Box::new(alloc, named_place(variable, number))?)
}
