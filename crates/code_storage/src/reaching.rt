// Which functions a thread function reaches.

ghost use Rattle.std.specs.Prelude.{◌≡◌, true, map, slice_get, slice_set, IfOk, OnOk};
ghost use Rattle.c_program.specs.Plain.{function_of};
ghost use Rattle.code_storage.specs.Reaching as spec;

use c_program::tree::Function;
use c_program::weight::push_calls;
use sqlite_items::Items;
use std::alloc::{AllocError, Global};

/// Whether a function is marked.
pub fn has(marks: &[bool], function: usize) -> bool
    ensures { result ≡ spec.has marks.now function }
{
    marks.get(function).copied().unwrap_or(false)
}

/// The functions that the one of that number calls.
fn callees(alloc: Global, functions: &[Function], number: usize) -> Result<Vec<u32>, AllocError>
    ensures { IfOk result (λ calls. calls.items ≡ spec.callees (slice_get (map function_of functions.now) number)) }
{
    let mut calls = Vec::new(alloc);
    if let Some(function) = functions.get(number) {
        push_calls(&function.body, &mut calls)?;
    }
    Ok(calls)
}

/// A function is marked, if there is one of that number.
fn mark(marks: &mut Items<bool>, number: usize)
    ensures { marks.new ≡ slice_set marks.old number true }
{
    if number < marks.len() {
        marks.set(number, true);
    }
}

/// The function of that number and those that it calls are marked, and so on, calls being less than depth deep: each after those
/// that it calls.
fn mark_from(
    alloc: Global,
    functions: &[Function],
    depth: usize,
    marks: &mut Items<bool>,
    number: usize,
) -> Result<(), AllocError>
    ensures { OnOk result (marks.new ≡ spec.mark_from (map function_of functions.now) depth marks.old number) }
{
    if depth == 0 || has(marks.as_slice(), number) {
        return Ok(());
    }
    let calls = callees(alloc, functions, number)?;
    for callee in calls.as_slice() {
        mark_from(alloc, functions, depth - 1, marks, *callee as usize)?;
    }
    mark(marks, number);
    Ok(())
}

/// Marks on the functions that the one of that number reaches, and on itself.
pub fn marks_of(
    alloc: Global,
    functions: &[Function],
    root: usize,
) -> Result<Items<bool>, AllocError>
    ensures { IfOk result (λ marks. marks ≡ spec.marks_of (map function_of functions.now) root) }
{
    let none = vec![in alloc; false; functions.len()]?;
    let mut marks = Items::from_vec(none);
    mark_from(alloc, functions, functions.len(), &mut marks, root)?;
    Ok(marks)
}
