// The rules on the name that is called, by where the call stands.

ghost use Rattle.std.specs.Prelude.{◌≡◌, slice_get};
ghost use Rattle.c_rules.specs.Walks.{Outcome, Walks};
ghost use Rattle.c_expressions.specs.Callees as spec;

use c_rules::fault::Rule;
use c_rules::findings::Findings;
use c_rules::library::LibraryFunction;
use c_rules::names::{Known, Meaning, Scope};
use c_rules::specifiers::BaseType;
use hls_ints::CType;
use std::alloc::AllocError;

/// The rules on a function of the text, called with so many arguments at the offset. Notes the call, and gives the number of its definition.
#[tactic(auto, unfolding(crate::specs::Callees::function_name, crate::specs::Callees::header_rules, crate::specs::Callees::called))]
pub fn function_name(
    scope: &Scope<'_>,
    found: &mut Findings,
    number: usize,
    count: usize,
    is_value: bool,
    offset: usize,
) -> Result<Option<u32>, AllocError>
    ensures { Walks (λ d. d) (spec.function_name scope.now number count is_value offset found.old) result found.new }
{
    let Some(header) = scope.headers.get(number) else {
        found.add(Rule::Unknown, offset);
        return Ok(None);
    };
    found.add_if(header.definition.is_none(), Rule::Unknown, offset);
    found.add_if(is_value && header.returns.is_void(), Rule::Kind, offset);
    found.add_if(count != header.parameters.len(), Rule::Arguments, offset);
    found.add_if(
        header.is_main || header.is_start_routine(),
        Rule::Threads,
        offset,
    );
    let Some(callee) = header.definition else {
        return Ok(None);
    };
    found.add_call(scope.function, callee, offset)?;
    Ok(Some(callee))
}

/// The rules on a function of the library, called with so many arguments at the offset.
#[tactic(auto, unfolding(crate::specs::Callees::library_name, crate::specs::Callees::library_place))]
pub fn library_name(
    scope: &Scope<'_>,
    found: &mut Findings,
    function: LibraryFunction,
    count: usize,
    offset: usize,
)
    ensures { spec.library_name scope.now function count offset found.old ≡ Outcome.Gives tt found.new }
{
    found.add_if(!function.takes(count), Rule::Arguments, offset);
    if matches!(function, LibraryFunction::Exit) {
        found.add_if(
            scope.function.is_none() || !scope.gives.is_pointer(),
            Rule::Threads,
            offset,
        );
    }
}

/// Whether a name is not declared (C99 6.2.1).
pub fn is_unknown(known: Known) -> bool
    ensures { result ≡ spec.is_unknown known }
{
    matches!(known, Known::Unknown)
}

/// Whether a name stands for something that can be used.
pub fn is_usable(known: Known) -> bool
    ensures { result ≡ spec.is_usable known }
{
    match known {
        Known::Unknown | Known::Declared(Meaning::Unusable) => false,
        _ => true,
    }
}

/// A called name that stands for no function.
#[tactic(auto, unfolding(crate::specs::Callees::no_function))]
pub fn no_function(found: &mut Findings, known: Known, offset: usize)
    ensures { spec.no_function known offset found.old ≡ Outcome.Gives tt found.new }
{
    found.add_if(is_unknown(known), Rule::Unknown, offset);
    found.add_if(is_usable(known), Rule::Kind, offset);
}

/// A call, as a value, of what is no function of the text.
#[tactic(auto, unfolding(crate::specs::Callees::misplaced, crate::specs::Callees::library_value))]
pub fn misplaced(scope: &Scope<'_>, found: &mut Findings, known: Known, count: usize, offset: usize)
    ensures { spec.misplaced scope.now known count offset found.old ≡ Outcome.Gives tt found.new }
{
    match known {
        Known::Library(function) => {
            found.add(Rule::Place, offset);
            library_name(scope, found, function, count, offset);
        }
        _ => no_function(found, known, offset),
    }
}

/// The number of the header of the function that a name stands for.
pub fn number_of(known: Known) -> Option<usize>
    ensures { result ≡ spec.number_of known }
{
    match known {
        Known::Declared(Meaning::Function(number)) => Some(number),
        _ => None,
    }
}

/// The type of the value of the function whose header has the number.
pub fn value_type(scope: &Scope<'_>, number: usize) -> CType
    ensures { result ≡ spec.value_type (slice_get scope.now.headers number) }
{
    match scope.headers.get(number) {
        Some(header) => match header.returns.base {
            BaseType::Integer(ty) => ty.c_type(),
            _ => CType::INT,
        },
        None => CType::INT,
    }
}
