//! The lines of a value change dump: identifiers of registers, changes, and what a cycle changes.
#![tactic(auto)]

ghost use Rattle.std.specs.Prelude.{◌≡◌, ◌++◌, ◌^◌, ◌<◌, length, OnOk};
ghost use Rattle.vcd_text.specs.Dump as dump;
ghost use Rattle.vcd_text.specs.Recover.{Recovers};

use hls_io::{Bytes, put_dec};
use std::alloc::{AllocError, Global};

/// Appends the identifier of a register of this number: base 94, the least digit first. Its digits are the printable
/// bytes but the blank, from `!`.
pub fn put_id(out: &mut Bytes, number: u64) -> Result<(), AllocError>
    ensures { OnOk result (out.new ≡ out.old ++ dump.id_of number) }
{
    let mut rest = number;
    for i in 0..10u64 {
        out.push(33 + (rest % 94) as u8)?;
        rest /= 94;
        if rest == 0 {
            return Ok(());
        }
    }
    Ok(())
}

/// Appends the value of a register, in base 2 without leading zeros, and what parts it from the identifier.
fn put_value(alloc: Global, out: &mut Bytes, width: u64, value: u64) -> Result<(), AllocError>
    requires { value < 2 ^ width }
    ensures { OnOk result (out.new ≡ out.old ++ dump.value width value) }
{
    if width == 1 {
        return out.push(48 + value as u8);
    }
    let text = format!(in alloc; "b{value:b} ")?;
    out.put(text.as_bytes())
}

/// Appends the line that says that the register of this number and width has this value.
pub fn put_change(
    alloc: Global,
    out: &mut Bytes,
    width: u64,
    value: u64,
    number: u64,
) -> Result<(), AllocError>
    requires { value < 2 ^ width }
    ensures { OnOk result (out.new ≡ out.old ++ dump.change width value number) }
{
    put_value(alloc, out, width, value)?;
    put_id(out, number)?;
    out.push(b'\n')
}

/// Appends the line of a register where its value is another one than before.
fn put_changed(
    alloc: Global,
    out: &mut Bytes,
    width: u64,
    before: u64,
    now: u64,
    number: u64,
) -> Result<(), AllocError>
    requires { now < 2 ^ width }
    ensures { OnOk result (out.new ≡ out.old ++ dump.changed width before now number) }
{
    if before == now {
        return Ok(());
    }
    put_change(alloc, out, width, now, number)
}

/// Appends the line of a number of cycles.
pub fn put_time(out: &mut Bytes, cycles: u32) -> Result<(), AllocError>
    ensures { OnOk result (out.new ≡ out.old ++ dump.time cycles) }
{
    out.push(b'#')?;
    put_dec(out, cycles as i128)?;
    out.push(b'\n')
}

/// Appends the line of each register.
fn put_all(alloc: Global, out: &mut Bytes, widths: &[u64], now: &[u64]) -> Result<(), AllocError>
    requires { dump.AreValues widths.now now.now }
    ensures { OnOk result (out.new ≡ out.old ++ dump.joined (dump.change_at widths.now now.now) (length widths.now)) }
{
    for k in 0..widths.len() {
        put_change(alloc, out, widths[k], now[k], k as u64)?;
    }
    Ok(())
}

/// Appends the lines of the registers that have other values than before.
fn put_changes(
    alloc: Global,
    out: &mut Bytes,
    widths: &[u64],
    before: &[u64],
    now: &[u64],
) -> Result<(), AllocError>
    requires earlier { length before.now ≡ length widths.now }
    requires values { dump.AreValues widths.now now.now }
    ensures { OnOk result (out.new ≡ out.old ++ dump.joined (dump.changed_at widths.now before.now now.now) (length widths.now)) }
{
    for k in 0..widths.len() {
        put_changed(alloc, out, widths[k], before[k], now[k], k as u64)?;
    }
    Ok(())
}

/// Appends what a dump says at first: the value of each register, by their widths in bits.
pub fn put_first_frame(
    alloc: Global,
    out: &mut Bytes,
    widths: &[u64],
    now: &[u64],
) -> Result<(), AllocError>
    requires { dump.AreValues widths.now now.now }
    ensures { OnOk result (out.new ≡ out.old ++ dump.first_frame widths.now now.now) }
{
    put_time(out, 0)?;
    out.put(b"$dumpvars\n")?;
    put_all(alloc, out, widths, now)?;
    out.put(b"$end\n")
}

/// Appends what a dump says after so many cycles: the registers that have other values than a cycle before.
pub fn put_frame(
    alloc: Global,
    out: &mut Bytes,
    cycles: u32,
    widths: &[u64],
    before: &[u64],
    now: &[u64],
) -> Result<(), AllocError>
    requires earlier { length before.now ≡ length widths.now }
    requires values { dump.AreValues widths.now now.now }
    ensures { OnOk result (out.new ≡ out.old ++ dump.frame cycles widths.now before.now now.now) }
{
    put_time(out, cycles)?;
    put_changes(alloc, out, widths, before, now)
}

/// A dump tells the value of each register after each number of cycles.
pub fn recovers()
    ensures { Recovers }
{}
