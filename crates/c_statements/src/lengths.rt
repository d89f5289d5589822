// The lengths that arrays are declared with (C99 6.7.5.2).

ghost use Rattle.std.specs.Prelude.{◌≡◌};
ghost use Rattle.c_rules.specs.Walks.{Outcome, Walks};
ghost use Rattle.c_resolution.specs.Locals as spec;

use c_expressions::expressions::look_through;
use c_rules::constants::{Constancy, constancy_of};
use c_rules::dimensions::Dimensions;
use c_rules::fault::Rule;
use c_rules::findings::Findings;
use c_rules::names::Scope;
use c_tree::Expression;
use std::alloc::{AllocError, Global};

/// The length that an array is declared with: a positive constant; 1 where it breaks a rule.
#[tactic(auto, unfolding(c_resolution::specs::Locals::length_from))]
fn length_from(found: &mut Findings, constancy: Constancy, offset: usize) -> u64
    ensures { spec.length_from constancy offset found.old ≡ Outcome.Gives result found.new }
{
    match constancy {
        Constancy::Constant(value) if value.number >= 1 => {
            value.number.min(0xffff_ffff_ffff_ffff) as u64
        }
        Constancy::Unknown => 1,
        _ => {
            found.add(Rule::Constant, offset);
            1
        }
    }
}

/// The length of one dimension of an array.
#[tactic(auto, unfolding(c_resolution::specs::Locals::array_length))]
fn array_length(
    alloc: Global,
    scope: &Scope<'_>,
    found: &mut Findings,
    e: &Expression,
) -> Result<u64, AllocError>
    ensures { Walks (λ n. n) (spec.array_length e.now scope.now found.old) result found.new }
{
    look_through(alloc, scope, found, e)?;
    Ok(length_from(found, constancy_of(e), e.offset))
}

/// The dimensions of an object by what stands in its brackets.
#[tactic(auto, unfolding(c_resolution::specs::Locals::dimensions))]
pub fn dimensions(
    alloc: Global,
    scope: &Scope<'_>,
    found: &mut Findings,
    lengths: &[Expression],
) -> Result<Dimensions, AllocError>
    ensures { Walks (λ d. d) (spec.dimensions lengths.now scope.now found.old) result found.new }
{
    let mut dimensions = Dimensions::Scalar;
    for e in lengths {
        let length = array_length(alloc, scope, found, e)?;
        dimensions = dimensions.with(length);
    }
    Ok(dimensions)
}
