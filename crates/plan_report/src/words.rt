//! The words of a line of a report.

ghost use Rattle.std.specs.Prelude.{◌≡◌, ◌++◌, OnOk};
ghost use Rattle.plan_report.specs.Words as spec;

use hls_ints::CType;
use hls_io::{Bytes, put_dec};
use std::alloc::AllocError;

/// Appends a further word.
pub fn put_word(out: &mut Bytes, text: &[u8]) -> Result<(), AllocError>
    ensures { OnOk result (out.new ≡ out.old ++ spec.word text.now) }
{
    out.push(b' ')?;
    out.put(text)
}

/// Appends a further number.
pub fn put_number(out: &mut Bytes, n: u64) -> Result<(), AllocError>
    ensures { OnOk result (out.new ≡ out.old ++ spec.number n) }
{
    out.push(b' ')?;
    put_dec(out, n as i128)
}

fn sign_word(signed: bool) -> &'static str
    ensures { result.now ≡ spec.sign_word signed }
{
    if signed { "signed" } else { "unsigned" }
}

/// Appends an integer type: its width in bits, and whether it has negative values.
pub fn put_type(out: &mut Bytes, ty: CType) -> Result<(), AllocError>
    ensures { OnOk result (out.new ≡ out.old ++ spec.type_words ty) }
{
    put_number(out, ty.bits() as u64)?;
    put_word(out, sign_word(ty.is_signed()).as_bytes())
}

/// Appends the line of a keyword and a number.
pub fn put_fact(out: &mut Bytes, keyword: &[u8], n: u64) -> Result<(), AllocError>
    ensures { OnOk result (out.new ≡ out.old ++ spec.fact keyword.now n) }
{
    out.put(keyword)?;
    put_number(out, n)?;
    out.push(b'\n')
}

/// Appends the line of a keyword and two numbers.
pub fn put_pair(out: &mut Bytes, keyword: &[u8], m: u64, n: u64) -> Result<(), AllocError>
    ensures { OnOk result (out.new ≡ out.old ++ spec.pair keyword.now m n) }
{
    out.put(keyword)?;
    put_number(out, m)?;
    put_number(out, n)?;
    out.push(b'\n')
}

/// Appends the line of a keyword and three numbers.
pub fn put_triple(out: &mut Bytes, keyword: &[u8], l: u64, m: u64, n: u64) -> Result<(), AllocError>
    ensures { OnOk result (out.new ≡ out.old ++ spec.triple keyword.now l m n) }
{
    out.put(keyword)?;
    put_number(out, l)?;
    put_number(out, m)?;
    put_number(out, n)?;
    out.push(b'\n')
}
