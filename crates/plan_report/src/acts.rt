//! The lines of an act at a core.

ghost use Rattle.std.specs.Prelude.{◌≡◌, ◌++◌, OnOk};
ghost use Rattle.std.specs.List.{flat_map};
ghost use Rattle.plan_report.specs.Acts as spec;

use crate::words::{put_fact, put_number, put_type};
use block_ir::code::{Act, ActOperand};
use hls_io::{Bytes, put_dec};
use std::alloc::AllocError;

fn put_operand_words(out: &mut Bytes, operand: &ActOperand) -> Result<(), AllocError>
    ensures { OnOk result (out.new ≡ out.old ++ spec.operand_words operand.now) }
{
    match operand {
        ActOperand::Constant(ty, value) => {
            out.put(b" constant ")?;
            put_dec(out, *value)?;
            put_type(out, *ty)
        }
        ActOperand::Variable(variable, ty) => {
            out.put(b" variable")?;
            put_number(out, *variable as u64)?;
            put_type(out, *ty)
        }
    }
}

/// Appends the line of an operand that an act hands to its core.
fn put_operand(out: &mut Bytes, operand: &ActOperand) -> Result<(), AllocError>
    ensures { OnOk result (out.new ≡ out.old ++ spec.act_operand_line operand.now) }
{
    out.put(b"handed")?;
    put_operand_words(out, operand)?;
    out.push(b'\n')
}

fn put_operands(out: &mut Bytes, operands: &[ActOperand]) -> Result<(), AllocError>
    ensures { OnOk result (out.new ≡ out.old ++ flat_map spec.act_operand_line operands.now) }
{
    for operand in operands {
        put_operand(out, operand)?;
    }
    Ok(())
}

/// Appends a line, and that of one operand.
fn put_one(out: &mut Bytes, line: &[u8], operand: &ActOperand) -> Result<(), AllocError>
    ensures { OnOk result (out.new ≡ out.old ++ spec.one line.now operand.now) }
{
    out.put(line)?;
    put_operand(out, operand)
}

/// Appends a line, and those of two operands.
fn put_two(
    out: &mut Bytes,
    line: &[u8],
    first: &ActOperand,
    second: &ActOperand,
) -> Result<(), AllocError>
    ensures { OnOk result (out.new ≡ out.old ++ spec.two line.now first.now second.now) }
{
    out.put(line)?;
    put_operand(out, first)?;
    put_operand(out, second)
}

fn put_print(out: &mut Bytes, site: u32, values: &[ActOperand]) -> Result<(), AllocError>
    ensures { OnOk result (out.new ≡ out.old ++ spec.print_lines site values.now) }
{
    put_fact(out, b"print", site as u64)?;
    put_operands(out, values)
}

/// Appends what an act asks, and its operands.
pub fn put_act(out: &mut Bytes, act: &Act) -> Result<(), AllocError>
    ensures { OnOk result (out.new ≡ out.old ++ spec.act_lines act.now) }
{
    match act {
        Act::Print { site, values } => put_print(out, *site, values.as_slice()),
        Act::Create { thread, argument } => put_two(out, b"create\n", thread, argument),
        Act::Join { thread } => put_one(out, b"join\n", thread),
        Act::MutexInit { mutex } => put_one(out, b"mutex_init\n", mutex),
        Act::MutexDestroy { mutex } => put_one(out, b"mutex_destroy\n", mutex),
        Act::MutexLock { mutex } => put_one(out, b"mutex_lock\n", mutex),
        Act::MutexUnlock { mutex } => put_one(out, b"mutex_unlock\n", mutex),
        Act::BarrierInit { barrier, count } => put_two(out, b"barrier_init\n", barrier, count),
        Act::BarrierDestroy { barrier } => put_one(out, b"barrier_destroy\n", barrier),
        Act::BarrierWait { barrier } => put_one(out, b"barrier_wait\n", barrier),
        Act::Return => out.put(b"return\n"),
    }
}
