// The format of a printf (C99 7.19.6.1, 6.4.4.4): text and conversions.

ghost use Rattle.std.specs.Prelude.{◌≡◌, [], option_map, count_by, IfOk, OnOk};
ghost use Rattle.c_program.specs.Plain.{piece_of, pieces_of};
ghost use Rattle.c_program.specs.Resolved.{is_conversion};
ghost use Rattle.c_rules.specs.Formats as spec;

use crate::specifiers::BasicType;
use c_program::tree::Piece;
use std::alloc::{AllocError, Global};
use std::mem;

/// What stands at the front of a format as it is written.
pub enum Part {
    Byte(u8),
    Conversion(BasicType),
}

/// A conversion by its letter to one of two types, and the rest.
fn lettered(signed: BasicType, unsigned: BasicType, text: &[u8]) -> Option<(Part, &[u8])>
    ensures { option_map (λ r. (r.0, r.1.now)) result ≡ spec.lettered signed unsigned text.now }
{
    let [byte, rest @ ..] = text else {
        return None;
    };
    match *byte {
        b'd' => Some((Part::Conversion(signed), rest)),
        b'u' => Some((Part::Conversion(unsigned), rest)),
        _ => None,
    }
}

/// What stands behind a `%`, and the rest.
fn conversion(text: &[u8]) -> Option<(Part, &[u8])>
    ensures { option_map (λ r. (r.0, r.1.now)) result ≡ spec.conversion text.now }
{
    match text {
        [b'%', rest @ ..] => Some((Part::Byte(b'%'), rest)),
        [b'l', b'l', rest @ ..] | [b'l', rest @ ..] => lettered(
            BasicType::Long,
            BasicType::UnsignedLong,
            rest,
        ),
        _ => lettered(BasicType::Int, BasicType::UnsignedInt, text),
    }
}

/// The first part of a format, and the rest; none where it is no part of a format of the profile.
fn first_part(text: &[u8]) -> Option<(Part, &[u8])>
    ensures { option_map (λ r. (r.0, r.1.now)) result ≡ spec.first_part text.now }
{
    match text {
        [b'\\', b'n', rest @ ..] => Some((Part::Byte(b'\n'), rest)),
        [b'\\', b't', rest @ ..] => Some((Part::Byte(b'\t'), rest)),
        [b'\\', b'\\', rest @ ..] => Some((Part::Byte(b'\\'), rest)),
        [b'\\', b'"', rest @ ..] => Some((Part::Byte(b'"'), rest)),
        [] | [b'\\', ..] => None,
        [b'%', rest @ ..] => conversion(rest),
        [byte, rest @ ..] => Some((Part::Byte(*byte), rest)),
    }
}

/// Adds the text behind the pieces, unless it is empty, and begins a new one.
fn flush(alloc: Global, pieces: &mut Vec<Piece>, text: &mut Vec<u8>) -> Result<(), AllocError>
    ensures pieces { OnOk result (pieces_of pieces.new.items ≡ spec.flushed (pieces_of pieces.old.items) text.old.items) }
    ensures text { OnOk result (text.new.items ≡ []) }
{
    if text.is_empty() {
        return Ok(());
    }
    let whole = mem::replace(text, Vec::new(alloc));
    pieces.push(Piece::Text(whole))?;
    Ok(())
}

/// Adds the part behind the pieces and the text.
fn add(
    alloc: Global,
    pieces: &mut Vec<Piece>,
    text: &mut Vec<u8>,
    part: Part,
) -> Result<(), AllocError>
    ensures { OnOk result ((pieces_of pieces.new.items, text.new.items) ≡ spec.with_part (pieces_of pieces.old.items) text.old.items part) }
{
    match part {
        Part::Byte(byte) => {
            text.push(byte)?;
            Ok(())
        }
        Part::Conversion(ty) => {
            flush(alloc, pieces, text)?;
            pieces.push(Piece::Conversion(ty.c_type()))?;
            Ok(())
        }
    }
}

/// The pieces with the text behind them.
fn finished(
    alloc: Global,
    mut pieces: Vec<Piece>,
    mut text: Vec<u8>,
) -> Result<Option<Vec<Piece>>, AllocError>
    ensures { IfOk result (λ r. option_map (λ v. pieces_of v.items) r ≡ Some (spec.flushed (pieces_of pieces.items) text.items)) }
{
    flush(alloc, &mut pieces, &mut text)?;
    Ok(Some(pieces))
}

/// The pieces of a format; none where an escape or a conversion in it is none of the profile.
pub fn pieces(alloc: Global, format: &[u8]) -> Result<Option<Vec<Piece>>, AllocError>
    ensures { IfOk result (λ r. option_map (λ v. pieces_of v.items) r ≡ spec.pieces_in format.now) }
{
    let mut pieces = Vec::new(alloc);
    let mut text = Vec::new(alloc);
    let mut left = format;
    for _turn in 0..format.len() {
        if left.is_empty() {
            return finished(alloc, pieces, text);
        }
        let Some((part, rest)) = first_part(left) else {
            return Ok(None);
        };
        add(alloc, &mut pieces, &mut text, part)?;
        left = rest;
    }
    if left.is_empty() {
        finished(alloc, pieces, text)
    } else {
        Ok(None)
    }
}

/// How many of the pieces are conversions.
pub fn conversions(pieces: &[Piece]) -> usize
    ensures { result ≡ count_by (λ p. is_conversion (piece_of p)) pieces.now }
{
    pieces
        .iter()
        .filter(|piece| matches!(piece, Piece::Conversion(_)))
        .count()
}
