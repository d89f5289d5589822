// Objects at file scope and their initial values (C99 6.9.2, 6.7.8).

ghost use Rattle.std.specs.Prelude.{◌≡◌, IfOk, OnOk, string_bytes};
ghost use Rattle.c_rules.specs.Walks.{Walks};
ghost use Rattle.c_resolution.specs.States.{state};
ghost use Rattle.c_resolution.specs.Files.{file};
ghost use Rattle.c_definitions.specs.Tabled.{tables_of};
ghost use Rattle.c_resolution.specs.Globals as spec;

use crate::initials::{initial, refuse};
use crate::tables::Tables;
use c_program::tree as resolved;
use c_rules::dimensions::Dimensions;
use c_rules::fault::Rule;
use c_rules::findings::{Findings, place};
use c_rules::names::{Meaning, Object, ObjectKind, Scope, Variable};
use c_rules::specifiers::{BaseType, Spelled, spelled_by};
use c_statements::lengths::dimensions;
use c_statements::locals::declare;
use c_tree::{GlobalDeclaration, GlobalDeclarator, Initializer, Name};
use std::alloc::{AllocError, Global};

/// A name as text.
pub fn text(alloc: Global, name: &[u8]) -> Result<String, AllocError>
    ensures { IfOk result (λ t. string_bytes t ≡ spec.text name.now) }
{
    let mut text = String::new(alloc);
    for byte in name {
        text.push(char::from(*byte))?;
    }
    Ok(text)
}

/// Adds an integer object to the program.
fn add_global(
    alloc: Global,
    tables: &mut Tables,
    name: &Name,
    variable: Variable,
    initial: Vec<i128>,
) -> Result<(), AllocError>
    ensures { OnOk result (tables_of tables.new ≡ spec.with_variable name.now variable initial.items (tables_of tables.old)) }
{
    let global = resolved::GlobalVariable {
        name: text(alloc, name.bytes.as_slice())?,
        ty: variable.ty.c_type(),
        length: variable.dimensions.elements(),
        initial,
    };
    tables.globals.push(global)?;
    Ok(())
}

/// An integer object.
#[tactic(auto, unfolding(c_resolution::specs::Globals::global_variable))]
fn global_variable<'t>(
    alloc: Global,
    scope: &mut Scope<'t>,
    found: &mut Findings,
    tables: &mut Tables,
    declared: &'t GlobalDeclarator,
    variable: Variable,
) -> Result<(), AllocError>
    ensures { Walks (λ x. x) (spec.global_variable declared.now variable (file scope.old found.old (tables_of tables.old)))
        result (file scope.new found.new (tables_of tables.new)) }
{
    declare(scope, found, &declared.name, Meaning::Variable(variable))?;
    let initial = initial(
        alloc,
        scope,
        found,
        &declared.name,
        variable,
        &declared.initializer,
    )?;
    add_global(alloc, tables, &declared.name, variable, initial)
}

/// Whether an object is initialised where it is declared; only a scalar mutex may be.
fn is_initialised(
    alloc: Global,
    scope: &Scope<'_>,
    found: &mut Findings,
    object: Object,
    name: &Name,
    initializer: &Option<Initializer>,
) -> Result<bool, AllocError>
    ensures { Walks (λ x. x) (spec.is_initialised object name.now initializer.now scope.now found.old) result found.new }
{
    let is_scalar_mutex = object.kind.is(ObjectKind::Mutex) && object.length.is_none();
    match initializer {
        Some(Initializer::Mutex) if is_scalar_mutex => Ok(true),
        Some(initializer) => {
            refuse(alloc, scope, found, name, initializer)?;
            Ok(false)
        }
        None => Ok(false),
    }
}

/// Adds an object to the table of its kind.
fn add_object(tables: &mut Tables, object: Object, initialised: bool) -> Result<(), AllocError>
    ensures { OnOk result (tables_of tables.new ≡ spec.with_object object initialised (tables_of tables.old)) }
{
    let length = object.length.unwrap_or(1);
    match object.kind {
        ObjectKind::Thread => {
            tables.threads.push(resolved::ThreadObject {
                length,
                routine: None,
            })?;
            Ok(())
        }
        ObjectKind::Mutex => {
            tables.mutexes.push(resolved::MutexObject {
                length,
                initialised,
            })?;
            Ok(())
        }
        ObjectKind::Barrier => {
            tables.barriers.push(resolved::BarrierObject { length })?;
            Ok(())
        }
    }
}

/// An object of POSIX threads.
#[tactic(auto, unfolding(c_resolution::specs::Globals::global_object))]
fn global_object<'t>(
    alloc: Global,
    scope: &mut Scope<'t>,
    found: &mut Findings,
    tables: &mut Tables,
    declared: &'t GlobalDeclarator,
    object: Object,
) -> Result<(), AllocError>
    ensures { Walks (λ x. x) (spec.global_object declared.now object (file scope.old found.old (tables_of tables.old)))
        result (file scope.new found.new (tables_of tables.new)) }
{
    declare(scope, found, &declared.name, Meaning::Object(object))?;
    let initialised = is_initialised(
        alloc,
        scope,
        found,
        object,
        &declared.name,
        &declared.initializer,
    )?;
    add_object(tables, object, initialised)
}

/// An object whose type breaks a rule.
#[tactic(auto, unfolding(c_resolution::specs::Globals::unusable))]
fn unusable<'t>(
    alloc: Global,
    scope: &mut Scope<'t>,
    found: &mut Findings,
    declared: &'t GlobalDeclarator,
) -> Result<(), AllocError>
    ensures { Walks (λ x. x) (spec.unusable declared.now (state scope.old found.old)) result (state scope.new found.new) }
{
    found.add(Rule::Kind, declared.name.offset);
    declare(scope, found, &declared.name, Meaning::Unusable)?;
    match &declared.initializer {
        Some(initializer) => refuse(alloc, scope, found, &declared.name, initializer),
        None => Ok(()),
    }
}

/// An object of POSIX threads, which has one dimension at most.
fn object(kind: ObjectKind, count: usize, dimensions: Dimensions) -> Meaning
    ensures { result ≡ spec.object kind count dimensions }
{
    let length = match dimensions {
        Dimensions::Scalar => None,
        Dimensions::One(length) => Some(length),
        Dimensions::Two(_, _) | Dimensions::Three(_, _, _) => return Meaning::Unusable,
    };
    Meaning::Object(Object {
        kind,
        number: place(count),
        length,
    })
}

/// The object that words of a type declare, behind which a `*` may stand: it is the next one of its kind.
fn global_meaning(
    tables: &Tables,
    words: Spelled,
    is_pointer: bool,
    dimensions: Dimensions,
) -> Meaning
    ensures { result ≡ spec.global_meaning (tables_of tables.now) words is_pointer dimensions }
{
    if is_pointer {
        return Meaning::Unusable;
    }
    match words.base {
        BaseType::Integer(ty) => Meaning::Variable(Variable {
            storage: resolved::Storage::Static,
            number: place(tables.globals.len()),
            ty,
            dimensions,
            is_const: words.is_const,
        }),
        BaseType::Thread => object(ObjectKind::Thread, tables.threads.len(), dimensions),
        BaseType::Mutex => object(ObjectKind::Mutex, tables.mutexes.len(), dimensions),
        BaseType::Barrier => object(ObjectKind::Barrier, tables.barriers.len(), dimensions),
        BaseType::Void | BaseType::Unlisted => Meaning::Unusable,
    }
}

/// An object by what its words declare.
#[tactic(auto, unfolding(c_resolution::specs::Globals::global, c_resolution::specs::Globals::global_as))]
fn global<'t>(
    alloc: Global,
    scope: &mut Scope<'t>,
    found: &mut Findings,
    tables: &mut Tables,
    words: Spelled,
    is_pointer: bool,
    declared: &'t GlobalDeclarator,
) -> Result<(), AllocError>
    ensures { Walks (λ x. x) (spec.global words is_pointer declared.now (file scope.old found.old (tables_of tables.old)))
        result (file scope.new found.new (tables_of tables.new)) }
{
    let dimensions = dimensions(alloc, scope, found, declared.lengths.as_slice())?;
    match global_meaning(tables, words, is_pointer, dimensions) {
        Meaning::Variable(variable) => {
            global_variable(alloc, scope, found, tables, declared, variable)
        }
        Meaning::Object(object) => global_object(alloc, scope, found, tables, declared, object),
        _ => unusable(alloc, scope, found, declared),
    }
}

/// Objects at file scope. A `*` stands before the first name alone.
#[tactic(auto, unfolding(c_resolution::specs::Globals::objects))]
pub fn objects<'t>(
    alloc: Global,
    scope: &mut Scope<'t>,
    found: &mut Findings,
    tables: &mut Tables,
    declaration: &'t GlobalDeclaration,
) -> Result<(), AllocError>
    ensures { Walks (λ x. x) (spec.objects declaration.now (file scope.old found.old (tables_of tables.old)))
        result (file scope.new found.new (tables_of tables.new)) }
{
    let words = spelled_by(&declaration.specifiers);
    let mut is_pointer = declaration.is_pointer;
    for declared in declaration.declarators.as_slice() {
        global(alloc, scope, found, tables, words, is_pointer, declared)?;
        is_pointer = false;
    }
    Ok(())
}
