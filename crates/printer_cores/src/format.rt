// The string of a `$write`, and its values (IEEE 1364-2005, 3.6 and 17.1).

ghost use Rattle.std.specs.Prelude.{◌≡◌, ◌+◌, ◌^◌, ◌<◌, ◌++◌, true, string_bytes, IfOk, OnOk};
ghost use Rattle.circuit.specs.Rows.{EachOf};
ghost use Rattle.printer_cores.specs.Format.{is_printable, all_printable, spelled_byte, spelled_bytes, spelled_part, spelled, arguments_of, values_of, IsPart};

use netlist::netlist::Argument;
use sqlite_items::Items;
use std::alloc::{AllocError, Global};
use verilog_tree::name::Quoted;

/// A part of what a site writes: bytes as they are, or its next value, read as a number from 0 or in two's complement.
///
/// The bytes of a text are 0x20 to 0x7E, line feeds and tabs.
#[derive(Drop)]
pub enum Part {
    Text(Items<u8>),
    Unsigned,
    Signed,
}

/// The string that stands for these parts.
pub fn string(alloc: Global, parts: &[Part]) -> Result<Quoted, AllocError>
    requires { EachOf IsPart parts.now }
    ensures { IfOk result (λ quoted. quoted ≡ spelled parts.now) }
{
    let mut text = String::new(alloc);
    for (i, part) in parts.iter().enumerate() {
        push_part(&mut text, part)?;
    }
    Ok(Quoted::from_string(text))
}

fn push_part(text: &mut String, part: &Part) -> Result<(), AllocError>
    requires { IsPart part.now }
    ensures { OnOk result (string_bytes text.new ≡ string_bytes text.old ++ spelled_part part.now) }
{
    match part {
        Part::Text(bytes) => push_bytes(text, bytes.as_slice()),
        Part::Unsigned | Part::Signed => text.push_str("%0d"),
    }
}

fn push_bytes(text: &mut String, bytes: &[u8]) -> Result<(), AllocError>
    requires { all_printable bytes.now ≡ true }
    ensures { OnOk result (string_bytes text.new ≡ string_bytes text.old ++ spelled_bytes bytes.now) }
{
    for (i, byte) in bytes.iter().enumerate() {
        push_byte(text, *byte)?;
    }
    Ok(())
}

fn push_byte(text: &mut String, byte: u8) -> Result<(), AllocError>
    requires { is_printable byte ≡ true }
    ensures { OnOk result (string_bytes text.new ≡ string_bytes text.old ++ spelled_byte byte) }
{
    match byte {
        b'\n' => text.push_str("\\n"),
        b'\t' => text.push_str("\\t"),
        b'\\' => text.push_str("\\\\"),
        b'"' => text.push_str("\\\""),
        b'%' => text.push_str("%%"),
        _ => text.push(byte as char),
    }
}

/// The values of these parts, which stand one after another from a place on.
pub fn arguments(alloc: Global, parts: &[Part], first: usize) -> Result<Items<Argument>, AllocError>
    requires { first + values_of parts.now < 2 ^ 64 }
    ensures { IfOk result (λ arguments. arguments ≡ arguments_of first parts.now) }
{
    let mut arguments = Items::new(alloc);
    let mut place = first;
    for (i, part) in parts.iter().enumerate() {
        match part {
            Part::Text(_) => {}
            Part::Unsigned => {
                arguments.push(Argument::Unsigned(place))?;
                place += 1;
            }
            Part::Signed => {
                arguments.push(Argument::Signed(place))?;
                place += 1;
            }
        }
    }
    Ok(arguments)
}
