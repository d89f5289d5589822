// The names of the registers of variables.

ghost use Rattle.std.specs.Prelude.{◌≡◌, map, slice_get, string_bytes, IfOk};
ghost use Rattle.verilog_tree.specs.Spelling as spelling;
ghost use Rattle.verilog_meaning.specs.Names.{numbered};
ghost use Rattle.thread_slots.specs.Naming as spec;

use sqlite_items::Items;
use std::alloc::{AllocError, Global};
use verilog_tree::name::Identifier;

fn is_letter(byte: u8) -> bool
    ensures { result ≡ spelling.is_letter byte }
{
    byte.is_ascii_alphabetic() || byte == b'_'
}

fn are_name_bytes(bytes: &[u8]) -> bool
    ensures { result ≡ spelling.all_pass spelling.is_name_byte bytes.now }
{
    for byte in bytes {
        if !is_letter(*byte) && !byte.is_ascii_digit() {
            return false;
        }
    }
    true
}

/// Whether the bytes are an identifier of C (6.4.2).
fn is_identifier(bytes: &[u8]) -> bool
    ensures { result ≡ spec.is_identifier bytes.now }
{
    let [first, rest @ ..] = bytes else {
        return false;
    };
    is_letter(*first) && are_name_bytes(rest)
}

/// What stands before `_` and the place: the name, but that memories are called `array_0`, `array_1`, and so on.
fn stem(alloc: Global, name: &str) -> Result<String, AllocError>
    ensures { IfOk result (λ stem. string_bytes stem ≡ spec.stem_for name.now) }
{
    if name == "array" {
        String::from_str(alloc, "array_")
    } else if is_identifier(name.as_bytes()) {
        String::from_str(alloc, name)
    } else {
        String::from_str(alloc, "variable")
    }
}

/// A name with the place of its register.
fn placed_name(alloc: Global, name: &str, place: usize) -> Result<Identifier, AllocError>
    ensures { IfOk result (λ text. text ≡ numbered (spec.stem_for name.now) place) }
{
    let mut text = stem(alloc, name)?;
    let number = (place as u64).to_string(alloc)?;
    text.push_str("_")?;
    text.push_str(number.as_str())?;
    Ok(Identifier::from_string(text))
}

/// The name of a variable's register at a place, `x_12` for the C local `x`, and `variable_12` where the variable is no local.
pub fn register_name(
    alloc: Global,
    names: &Items<String>,
    variable: usize,
    place: usize,
) -> Result<Identifier, AllocError>
    ensures { IfOk result (λ text. text ≡ spec.register_name (map string_bytes names.now) variable place) }
{
    match names.get(variable) {
        Some(name) => placed_name(alloc, name.as_str(), place),
        None => placed_name(alloc, "", place),
    }
}
