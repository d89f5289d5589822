// What names of blocks and parameters are declared as (C99 6.2.1, 6.7).

ghost use Rattle.std.specs.Prelude.{◌≡◌};
ghost use Rattle.c_rules.specs.Specifiers.{plain};
ghost use Rattle.c_rules.specs.declared.findings.Findings.{Findings as FindingsOf};
ghost use Rattle.c_rules.specs.Walks.{Outcome, Walks};
ghost use Rattle.c_resolution.specs.States.{state};
ghost use Rattle.c_resolution.specs.Locals as spec;

use c_program::tree as resolved;
use c_rules::dimensions::Dimensions;
use c_rules::fault::Rule;
use c_rules::findings::{Findings, place};
use c_rules::names::{Meaning, Scope, Variable};
use c_rules::specifiers::{BaseType, BasicType, Spelled};
use c_tree::Name;
use std::alloc::AllocError;

/// The integer type of the words without `static`, if they spell one.
pub fn plain_type(words: Spelled) -> Option<BasicType>
    ensures { result ≡ plain words.is_static words.base }
{
    match words.base {
        BaseType::Integer(ty) if !words.is_static => Some(ty),
        _ => None,
    }
}

/// A local of the type.
#[tactic(auto, unfolding(c_resolution::specs::Locals::new_local))]
pub fn new_local(
    scope: &mut Scope<'_>,
    words: Spelled,
    dimensions: Dimensions,
    ty: BasicType,
) -> Result<Meaning, AllocError>
    ensures { (found : FindingsOf) → Walks (λ m. m) (spec.new_local words dimensions ty (state scope.old found)) result (state scope.new found) }
{
    let number = place(scope.locals.len());
    scope.locals.push(resolved::LocalVariable {
        ty: ty.c_type(),
        length: dimensions.elements(),
    })?;
    Ok(Meaning::Variable(Variable {
        storage: resolved::Storage::Automatic,
        number,
        ty,
        dimensions,
        is_const: words.is_const,
    }))
}

/// A local that breaks a rule.
#[tactic(auto, unfolding(c_resolution::specs::Locals::refused_local))]
pub fn refused_local(found: &mut Findings, words: Spelled, offset: usize) -> Meaning
    ensures { spec.refused_local words offset found.old ≡ Outcome.Gives result found.new }
{
    match words.base {
        BaseType::Thread | BaseType::Mutex | BaseType::Barrier => {
            found.add_if(words.is_static, Rule::Kind, offset);
            found.add(Rule::Threads, offset);
        }
        _ => found.add(Rule::Kind, offset),
    }
    Meaning::Unusable
}

/// An object of a block with these words.
#[tactic(auto, unfolding(c_resolution::specs::Locals::local))]
pub fn local(
    scope: &mut Scope<'_>,
    found: &mut Findings,
    words: Spelled,
    offset: usize,
    dimensions: Dimensions,
) -> Result<Meaning, AllocError>
    ensures { Walks (λ m. m) (spec.local words offset dimensions (state scope.old found.old)) result (state scope.new found.new) }
{
    match plain_type(words) {
        Some(ty) => new_local(scope, words, dimensions, ty),
        None => Ok(refused_local(found, words, offset)),
    }
}

/// Declares a name in the innermost scope, unless it is taken there.
#[tactic(auto, unfolding(c_resolution::specs::Locals::declare))]
pub fn declare<'t>(
    scope: &mut Scope<'t>,
    found: &mut Findings,
    name: &'t Name,
    meaning: Meaning,
) -> Result<(), AllocError>
    ensures { Walks (λ x. x) (spec.declare name.now meaning (state scope.old found.old)) result (state scope.new found.new) }
{
    let bytes = name.bytes.as_slice();
    if scope.is_taken(bytes) {
        found.add(Rule::Twice, name.offset);
        Ok(())
    } else {
        scope.declare(bytes, meaning)
    }
}
