// The names of variables: those of the scalar locals, in order of declaration, function after function.
ghost use Rattle.std.specs.Prelude.{◌≡◌, ◌++◌, map, slice_get, string_bytes, IfOk, OnOk};
ghost use Rattle.std.specs.List.{list_all};
ghost use Rattle.c_program.specs.Plain.{function_of};
ghost use Rattle.c_program.specs.Resolved.{is_letter, is_letter_or_digit};
ghost use Rattle.code_storage.specs.Names as spec;
ghost use Rattle.code_storage.specs.Reaching.{with_marks};

use crate::reaching::has;
use crate::rooms::kept_locals;
use c_program::tree::{Function, LocalVariable};
use sqlite_items::{Items, at};
use std::alloc::{AllocError, Global};

fn is_letter(byte: u8) -> bool
    ensures { result ≡ is_letter byte }
{
    byte.is_ascii_alphabetic() || byte == b'_'
}

fn are_letters_or_digits(bytes: &[u8]) -> bool
    ensures { result ≡ list_all is_letter_or_digit bytes.now }
{
    for byte in bytes {
        if !is_letter(*byte) && !byte.is_ascii_digit() {
            return false;
        }
    }
    true
}

/// Whether the bytes are an identifier (6.4.2).
fn is_name(bytes: &[u8]) -> bool
    ensures { result ≡ spec.is_name bytes.now }
{
    let [first, rest @ ..] = bytes else {
        return false;
    };
    is_letter(*first) && are_letters_or_digits(rest)
}

/// The name at that place, where it is one, or an empty one.
fn name_given(alloc: Global, names: &[String], place: usize) -> Result<String, AllocError>
    ensures { IfOk result (λ name. string_bytes name ≡ spec.name_given (slice_get (map string_bytes names.now) place)) }
{
    match at(names, place) {
        Some(name) if is_name(name.as_bytes()) => name.clone(),
        _ => Ok(String::new(alloc)),
    }
}

/// The names of the scalars among these locals come behind.
fn push_names(
    alloc: Global,
    names: &mut Items<String>,
    locals: &[LocalVariable],
    given: &[String],
) -> Result<(), AllocError>
    ensures { OnOk result (map string_bytes names.new ≡ map string_bytes names.old ++ spec.scalar_names locals.now (map string_bytes given.now)) }
{
    for (place, local) in locals.iter().enumerate() {
        if local.length == 1 {
            names.push(name_given(alloc, given, place)?)?;
        }
    }
    Ok(())
}

/// The names of the variables of these functions, as they are marked.
pub fn names_of(
    alloc: Global,
    functions: &[Function],
    marks: &[bool],
) -> Result<Items<String>, AllocError>
    ensures { IfOk result (λ names. map string_bytes names ≡ spec.variable_names (with_marks marks.now (map function_of functions.now))) }
{
    let mut names = Items::new(alloc);
    for (number, function) in functions.iter().enumerate() {
        let locals = kept_locals(has(marks, number), function);
        push_names(alloc, &mut names, locals, &function.local_names)?;
    }
    Ok(names)
}
