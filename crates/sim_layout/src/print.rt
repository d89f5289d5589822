// What the edge writes: the strings of `$write` with their values.

ghost use Rattle.std.specs.Prelude.{◌≡◌, ◌++◌, [], slice_get, OnOk, OnErr, is_ok, if◌then◌else◌};
ghost use Rattle.verilog_meaning.specs.Readings as meaning;
ghost use Rattle.verilog_meaning.specs.Readings.{mode_after as next_mode, escaped as byte_of_escape, plain_bytes, bytes_of, filled, all_arguments};
ghost use Rattle.verilog_meaning.specs.Readings.{argument_bytes, first_of, effect_bytes, is_on, written};
ghost use Rattle.sim_values.specs.Rows.{EachOf};
ghost use Rattle.sim_values.specs.Flat.{flat_of, reading, IsWide, IsNarrowArgument, IsNarrowEffect, IsNarrowAction, ArePrintable, part_written, all_written};
ghost use Rattle.sim_layout.specs.Print.{mode_of, left_after, Keeps, IsSomething};

use hls_ints::signed_value;
use hls_io::{Bytes, put_dec};
use netlist::netlist::{Action, Argument, Effect, Module};
use sim_values::edge::{Part, conditions_hold};
use sim_values::value::{Now, Spot, number_at, width_at};
use sqlite_items::at;
use std::alloc::AllocError;

/// How far a string is read: at a plain byte, after a backslash, after a %, and after %0.
#[derive(Clone, Copy)]
pub enum Mode {
    Plain,
    Escape,
    Percent,
    PercentZero,
}

fn plain_mode(byte: u8) -> Mode
    ensures { mode_of result ≡ meaning.plain_mode byte }
{
    match byte {
        b'\\' => Mode::Escape,
        b'%' => Mode::Percent,
        _ => Mode::Plain,
    }
}

fn mode_after(mode: Mode, byte: u8) -> Mode
    ensures { mode_of result ≡ next_mode (mode_of mode) byte }
{
    match mode {
        Mode::Plain => plain_mode(byte),
        Mode::Percent if byte == b'0' => Mode::PercentZero,
        Mode::Percent | Mode::Escape | Mode::PercentZero => Mode::Plain,
    }
}

fn escaped(byte: u8) -> u8
    ensures { result ≡ byte_of_escape byte }
{
    match byte {
        b'n' => b'\n',
        b't' => b'\t',
        _ => byte,
    }
}

/// Appends a value in minimal decimals. At `Err` nothing is changed. Where memory is wanting, here and below, there is something to
/// append.
fn put_argument(
    out: &mut Bytes,
    module: &Module,
    spot: Spot,
    now: &Now,
    argument: Argument,
) -> Result<(), AllocError>
    requires { IsNarrowArgument «module».now argument }
    ensures bytes { out.new ≡ (if is_ok result then out.old ++ argument_bytes «module».now (reading spot (flat_of now.now)) argument else out.old) }
    ensures prints { OnErr result (IsSomething (argument_bytes «module».now (reading spot (flat_of now.now)) argument)) }
{
    match argument {
        Argument::Unsigned(signal) => {
            put_dec(out, number_at(now.numbers, spot.base, signal) as i128)
        }
        Argument::Signed(signal) => {
            let width = width_at(module, signal);
            let word = number_at(now.numbers, spot.base, signal) as u128 % (1u128 << width);
            put_dec(out, signed_value(width, word as u64))
        }
    }
}

/// Appends the first of these values, where there is one.
fn put_first(
    out: &mut Bytes,
    module: &Module,
    spot: Spot,
    now: &Now,
    rest: &[Argument],
) -> Result<(), AllocError>
    requires { EachOf (IsNarrowArgument «module».now) rest.now }
    ensures bytes { out.new ≡ (if is_ok result then out.old ++ first_of (all_arguments «module».now (reading spot (flat_of now.now)) rest.now) else out.old) }
    ensures prints { OnErr result (IsSomething (first_of (all_arguments «module».now (reading spot (flat_of now.now)) rest.now))) }
{
    match rest.split_first() {
        Some((first, _)) => put_argument(out, module, spot, now, *first),
        None => Ok(()),
    }
}

fn put_plain(out: &mut Bytes, byte: u8) -> Result<(), AllocError>
    ensures bytes { out.new ≡ (if is_ok result then out.old ++ plain_bytes byte (meaning.plain_mode byte) else out.old) }
    ensures prints { OnErr result (IsSomething (plain_bytes byte (meaning.plain_mode byte))) }
{
    match byte {
        b'\\' | b'%' => Ok(()),
        _ => out.push(byte),
    }
}

/// Appends what a byte of a string stands for, the values still to come being these.
fn put_byte(
    out: &mut Bytes,
    module: &Module,
    spot: Spot,
    now: &Now,
    mode: Mode,
    byte: u8,
    rest: &[Argument],
) -> Result<(), AllocError>
    requires { EachOf (IsNarrowArgument «module».now) rest.now }
    ensures bytes { out.new ≡ (if is_ok result then out.old ++ bytes_of (mode_of mode) byte (all_arguments «module».now (reading spot (flat_of now.now)) rest.now) else out.old) }
    ensures prints { OnErr result (IsSomething (bytes_of (mode_of mode) byte (all_arguments «module».now (reading spot (flat_of now.now)) rest.now))) }
{
    match mode {
        Mode::Plain => put_plain(out, byte),
        Mode::Escape => out.push(escaped(byte)),
        Mode::Percent if byte == b'0' => Ok(()),
        Mode::Percent => out.push(byte),
        Mode::PercentZero => put_first(out, module, spot, now, rest),
    }
}

/// The values that are still to come after a byte.
fn values_left(mode: Mode, rest: &[Argument]) -> &[Argument]
    ensures { result.now ≡ left_after (mode_of mode) rest.now }
{
    match mode {
        Mode::PercentZero => match rest.split_first() {
            Some((_, rest)) => rest,
            None => rest,
        },
        Mode::Plain | Mode::Escape | Mode::Percent => rest,
    }
}

/// Appends the bytes of a string, with the values put in for `%0d`. At `Err` what was there stays in front.
fn put_string(
    out: &mut Bytes,
    module: &Module,
    spot: Spot,
    now: &Now,
    text: &[u8],
    arguments: &[Argument],
) -> Result<(), AllocError>
    requires { EachOf (IsNarrowArgument «module».now) arguments.now }
    ensures ok { OnOk result (out.new ≡ out.old ++ filled meaning.Plain text.now (all_arguments «module».now (reading spot (flat_of now.now)) arguments.now)) }
    ensures kept { Keeps out.old out.new }
    ensures prints { OnErr result (IsSomething (filled meaning.Plain text.now (all_arguments «module».now (reading spot (flat_of now.now)) arguments.now))) }
{
    let mut mode = Mode::Plain;
    let mut rest = arguments;
    for byte in text {
        put_byte(out, module, spot, now, mode, *byte, rest)?;
        rest = values_left(mode, rest);
        mode = mode_after(mode, *byte);
    }
    Ok(())
}

fn put_action(
    out: &mut Bytes,
    module: &Module,
    spot: Spot,
    now: &Now,
    action: &Action,
) -> Result<(), AllocError>
    requires { IsNarrowEffect «module».now action.now.effect }
    ensures ok { OnOk result (out.new ≡ out.old ++ (if is_on (reading spot (flat_of now.now)) action.now.conditions
        then effect_bytes «module».now (reading spot (flat_of now.now)) action.now.effect else [])) }
    ensures kept { Keeps out.old out.new }
    ensures prints { OnErr result
        (IsSomething (if is_on (reading spot (flat_of now.now)) action.now.conditions then effect_bytes «module».now (reading spot (flat_of now.now)) action.now.effect else [])) }
{
    if !conditions_hold(spot, now, action.conditions.as_slice()) {
        return Ok(());
    }
    match &action.effect {
        Effect::Write { text, arguments } => put_string(
            out,
            module,
            spot,
            now,
            text.as_str().as_bytes(),
            arguments.as_slice(),
        ),
        Effect::Set { .. } | Effect::Store { .. } => Ok(()),
    }
}

fn put_module(out: &mut Bytes, module: &Module, spot: Spot, now: &Now) -> Result<(), AllocError>
    requires { EachOf (IsNarrowAction «module».now) «module».now.actions }
    ensures ok { OnOk result (out.new ≡ out.old ++ written «module».now (reading spot (flat_of now.now))) }
    ensures kept { Keeps out.old out.new }
    ensures prints { OnErr result (IsSomething (written «module».now (reading spot (flat_of now.now)))) }
{
    for action in module.actions.as_slice() {
        put_action(out, module, spot, now, action)?;
    }
    Ok(())
}

fn put_part(out: &mut Bytes, modules: &[Module], part: Part, now: &Now) -> Result<(), AllocError>
    requires { ArePrintable modules.now }
    ensures ok { OnOk result (out.new ≡ out.old ++ part_written part (flat_of now.now) (slice_get modules.now part.module)) }
    ensures kept { Keeps out.old out.new }
    ensures prints { OnErr result (IsSomething (part_written part (flat_of now.now) (slice_get modules.now part.module))) }
{
    match at(modules, part.module) {
        Some(module) => put_module(out, module, part.spot, now),
        None => Ok(()),
    }
}

/// Appends what the instances write, one after the other. At `Err` what was there stays in front.
fn put_parts(
    out: &mut Bytes,
    modules: &[Module],
    parts: &[Part],
    now: &Now,
) -> Result<(), AllocError>
    requires { ArePrintable modules.now }
    ensures ok { OnOk result (out.new ≡ out.old ++ all_written modules.now (flat_of now.now) parts.now) }
    ensures kept { Keeps out.old out.new }
    ensures prints { OnErr result (IsSomething (all_written modules.now (flat_of now.now) parts.now)) }
{
    for part in parts {
        put_part(out, modules, *part, now)?;
    }
    Ok(())
}

/// Appends what an edge writes. At `Err` nothing is changed, and the edge writes something.
pub fn put_written(
    out: &mut Bytes,
    modules: &[Module],
    parts: &[Part],
    now: &Now,
) -> Result<(), AllocError>
    requires { ArePrintable modules.now }
    ensures bytes { out.new ≡ (if is_ok result then out.old ++ all_written modules.now (flat_of now.now) parts.now else out.old) }
    ensures prints { OnErr result (IsSomething (all_written modules.now (flat_of now.now) parts.now)) }
{
    let length = out.len();
    let result = put_parts(out, modules, parts, now);
    if result.is_err() {
        out.truncate(length);
    }
    result
}
