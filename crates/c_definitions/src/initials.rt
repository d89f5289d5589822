// Initial values of objects at file scope (C99 6.7.8).

ghost use Rattle.std.specs.Prelude.{◌≡◌, map, OnOk};
ghost use Rattle.c_rules.specs.Walks.{Walks};
ghost use Rattle.c_resolution.specs.Globals as spec;

use c_expressions::expressions::look_through;
use c_rules::constants::{Constancy, constancy_of};
use c_rules::dimensions::Dimensions;
use c_rules::fault::Rule;
use c_rules::findings::Findings;
use c_rules::names::{Scope, Variable};
use c_tree::{Expression, Initial, Initializer, Name};
use hls_ints::{CType, wrap};
use std::alloc::{AllocError, Global};

/// An initial value of a type.
#[tactic(auto, unfolding(c_resolution::specs::Globals::initial_value, c_resolution::specs::Globals::initial_from))]
fn initial_value(
    alloc: Global,
    scope: &Scope<'_>,
    found: &mut Findings,
    ty: CType,
    e: &Expression,
) -> Result<i128, AllocError>
    ensures { Walks (λ x. x) (spec.initial_value ty e.now scope.now found.old) result found.new }
{
    look_through(alloc, scope, found, e)?;
    match constancy_of(e) {
        Constancy::Constant(value) => Ok(wrap(ty, value.number)),
        Constancy::Unknown => Ok(0),
        Constancy::NotConstant => {
            found.add(Rule::Constant, e.offset);
            Ok(0)
        }
    }
}

/// Initial values that are one value.
fn one_value(
    alloc: Global,
    scope: &Scope<'_>,
    found: &mut Findings,
    ty: CType,
    e: &Expression,
) -> Result<Vec<i128>, AllocError>
    ensures { Walks (λ v. v.items) (spec.one_value ty e.now scope.now found.old) result found.new }
{
    let value = initial_value(alloc, scope, found, ty, e)?;
    let mut values = Vec::new(alloc);
    values.push(value)?;
    Ok(values)
}

/// Looks at items of an initialiser for the faults in them.
fn look_at_items(
    alloc: Global,
    scope: &Scope<'_>,
    found: &mut Findings,
    items: &[Initial],
) -> Result<(), AllocError>
    ensures { Walks (λ x. x) (spec.looked_list items.now scope.now found.old) result found.new }
{
    for item in items {
        match item {
            Initial::Value(e) => look_through(alloc, scope, found, e.get())?,
            Initial::List(inner, _) => look_at_items(alloc, scope, found, inner.as_slice())?,
        }
    }
    Ok(())
}

/// At least so many values; those between are 0. No more than 4,096 are asked for: an array of more elements is refused.
fn fill(values: &mut Vec<i128>, count: u64) -> Result<(), AllocError>
    ensures { OnOk result (values.new.items ≡ spec.filled count values.old.items) }
{
    let missing = count.min(4096).saturating_sub(values.len() as u64);
    for _value in 0..missing {
        values.push(0)?;
    }
    Ok(())
}

/// The values of an item as an element of the dimensions, which is one too many or not: a scalar has a value, and an array braces.
#[cycle(initials)]
#[tactic(auto, unfolding(c_resolution::specs::Globals::refused_item))]
fn item_values(
    alloc: Global,
    scope: &Scope<'_>,
    found: &mut Findings,
    ty: CType,
    dimensions: Dimensions,
    is_too_many: bool,
    item: &Initial,
) -> Result<Vec<i128>, AllocError>
    ensures { Walks (λ v. v.items) ((spec.item scope.now item.now).values is_too_many ty dimensions found.old) result found.new }
{
    match item {
        Initial::Value(e) => {
            let e = e.get();
            found.add_if(is_too_many, Rule::Constant, e.offset);
            if dimensions.is_scalar() {
                return one_value(alloc, scope, found, ty, e);
            }
            found.add(Rule::Kind, e.offset);
            look_through(alloc, scope, found, e)?;
            Ok(Vec::new(alloc))
        }
        Initial::List(items, offset) => {
            let items = items.as_slice();
            found.add_if(is_too_many, Rule::Constant, *offset);
            if !dimensions.is_scalar() {
                let length = dimensions.outermost();
                return row_values(alloc, scope, found, ty, length, dimensions.inner(), items);
            }
            found.add(Rule::Kind, *offset);
            look_at_items(alloc, scope, found, items)?;
            Ok(Vec::new(alloc))
        }
    }
}

/// The values of so many elements of the dimensions, in row order.
#[cycle(initials)]
#[tactic(auto, unfolding(c_resolution::specs::Globals::row_values))]
fn row_values(
    alloc: Global,
    scope: &Scope<'_>,
    found: &mut Findings,
    ty: CType,
    length: u64,
    dimensions: Dimensions,
    items: &[Initial],
) -> Result<Vec<i128>, AllocError>
    ensures { Walks (λ v. v.items) (spec.row_values ty length dimensions (map (spec.item scope.now) items.now) found.old) result found.new }
{
    let mut values = Vec::new(alloc);
    for (index, item) in items.iter().enumerate() {
        let before = index as u64;
        let is_too_many = length <= before;
        let mut row = item_values(alloc, scope, found, ty, dimensions, is_too_many, item)?;
        fill(&mut values, before.saturating_mul(dimensions.elements()))?;
        values.append(&mut row)?;
    }
    Ok(values)
}

/// Whether the first item has braces.
fn is_by_rows(items: &[Initial]) -> bool
    ensures { result ≡ spec.is_by_rows items.now }
{
    match items {
        [Initial::List(_, _), ..] => true,
        _ => false,
    }
}

/// The initial values of an array: by rows where the first item has braces, and else all elements in row order.
#[tactic(auto, unfolding(c_resolution::specs::Globals::array_values))]
fn array_values(
    alloc: Global,
    scope: &Scope<'_>,
    found: &mut Findings,
    ty: CType,
    dimensions: Dimensions,
    items: &[Initial],
) -> Result<Vec<i128>, AllocError>
    ensures { Walks (λ v. v.items) (spec.array_values ty dimensions items.now scope.now found.old) result found.new }
{
    if is_by_rows(items) {
        let length = dimensions.outermost();
        row_values(alloc, scope, found, ty, length, dimensions.inner(), items)
    } else {
        let length = dimensions.elements();
        row_values(alloc, scope, found, ty, length, Dimensions::Scalar, items)
    }
}

/// An initialiser of another form than the object's.
#[tactic(auto, unfolding(c_resolution::specs::Globals::refused))]
pub fn refuse(
    alloc: Global,
    scope: &Scope<'_>,
    found: &mut Findings,
    name: &Name,
    initializer: &Initializer,
) -> Result<(), AllocError>
    ensures { Walks (λ x. x) (spec.refused name.now initializer.now scope.now found.old) result found.new }
{
    found.add(Rule::Kind, name.offset);
    match initializer {
        Initializer::Value(e) => look_through(alloc, scope, found, e.get()),
        Initializer::List(list, _) => look_at_items(alloc, scope, found, list.as_slice()),
        Initializer::Mutex => Ok(()),
    }
}

/// The initial values of an integer object: a scalar has a value, and an array braces.
#[tactic(auto, unfolding(c_resolution::specs::Globals::refused_values))]
pub fn initial(
    alloc: Global,
    scope: &Scope<'_>,
    found: &mut Findings,
    name: &Name,
    variable: Variable,
    initializer: &Option<Initializer>,
) -> Result<Vec<i128>, AllocError>
    ensures { Walks (λ v. v.items) (spec.initial name.now variable initializer.now scope.now found.old) result found.new }
{
    let ty = variable.ty.c_type();
    let dimensions = variable.dimensions;
    match (dimensions.is_scalar(), initializer) {
        (_, None) => Ok(Vec::new(alloc)),
        (true, Some(Initializer::Value(e))) => one_value(alloc, scope, found, ty, e.get()),
        (false, Some(Initializer::List(list, _))) => {
            array_values(alloc, scope, found, ty, dimensions, list.as_slice())
        }
        (_, Some(initializer)) => {
            refuse(alloc, scope, found, name, initializer)?;
            Ok(Vec::new(alloc))
        }
    }
}
