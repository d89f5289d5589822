// The right side of an assign.

ghost use Rattle.std.specs.Prelude.{◌≡◌, IfOk, if◌then◌else◌};
ghost use Rattle.netlist_text.specs.LaidOut as laid;
ghost use Rattle.netlist.specs.declared.netlist.Value.TheVariants as v;

use crate::names::{memory_name, signal_name, signal_names, word_count};
use netlist::netlist::{Module, Value};
use std::alloc::{AllocError, Global};
use verilog_tree::name::Identifier;
use verilog_tree::tree::{BinaryOperator, Constant, DivisionOperator, Expression};

fn two_names(
    parent: &Module,
    left: usize,
    right: usize,
) -> Result<(Identifier, Identifier), AllocError>
    ensures { IfOk result (λ both. both ≡ (laid.signal_name parent.now left, laid.signal_name parent.now right)) }
{
    let left = signal_name(parent, left)?;
    let right = signal_name(parent, right)?;
    Ok((left, right))
}

fn conditional(
    parent: &Module,
    condition: usize,
    if_true: usize,
    if_false: usize,
) -> Result<Expression, AllocError>
    ensures { IfOk result (λ e. e ≡ laid.expression parent.now 0 (v.Conditional condition if_true if_false)) }
{
    let condition = signal_name(parent, condition)?;
    let if_true = signal_name(parent, if_true)?;
    let if_false = signal_name(parent, if_false)?;
    Ok(Expression::Conditional {
        condition,
        if_true,
        if_false,
    })
}

/// A division, of two's complement numbers or not.
fn division(
    parent: &Module,
    width: u64,
    is_signed: bool,
    operator: DivisionOperator,
    left: usize,
    right: usize,
) -> Result<Expression, AllocError>
    ensures { IfOk result (λ e. e ≡ laid.expression parent.now width (if is_signed then v.SignedDivision operator left right else v.Division operator left right)) }
{
    let zero = Constant { width, value: 0 };
    let tested = signal_name(parent, right)?;
    let left = signal_name(parent, left)?;
    let right = signal_name(parent, right)?;
    if is_signed {
        Ok(Expression::SignedDivision {
            tested,
            zero,
            guarded: zero,
            operator,
            left,
            right,
        })
    } else {
        Ok(Expression::Division {
            tested,
            zero,
            guarded: zero,
            operator,
            left,
            right,
        })
    }
}

/// The bound is the number of words, as a constant of the address's width.
fn memory_read(
    parent: &Module,
    width: u64,
    memory: usize,
    address: usize,
) -> Result<Expression, AllocError>
    ensures { IfOk result (λ e. e ≡ laid.expression parent.now width (v.MemoryRead memory address)) }
{
    let tested = signal_name(parent, address)?;
    let bound = word_count(parent, memory, address);
    let memory = memory_name(parent, memory)?;
    let address = signal_name(parent, address)?;
    Ok(Expression::MemoryRead {
        tested,
        bound,
        memory,
        address,
        guarded: Constant { width, value: 0 },
    })
}

fn select(parent: &Module, of: usize, high: u64, low: u64) -> Result<Expression, AllocError>
    ensures { IfOk result (λ e. e ≡ laid.select parent.now of high low) }
{
    let of = signal_name(parent, of)?;
    if high == low {
        Ok(Expression::BitSelect { of, bit: high })
    } else {
        Ok(Expression::PartSelect { of, high, low })
    }
}

/// The right side at a target of a width.
pub fn expression(
    alloc: Global,
    parent: &Module,
    width: u64,
    value: &Value,
) -> Result<Expression, AllocError>
    ensures { IfOk result (λ e. e ≡ laid.expression parent.now width value.now) }
{
    match value {
        Value::Copy(of) => Ok(Expression::Copy(signal_name(parent, *of)?)),
        Value::Constant(value) => Ok(Expression::Constant(Constant {
            width,
            value: *value,
        })),
        Value::BitwiseNot(of) => Ok(Expression::BitwiseNot(signal_name(parent, *of)?)),
        Value::Binary {
            operator,
            left,
            right,
        } => {
            let (left, right) = two_names(parent, *left, *right)?;
            Ok(Expression::Binary {
                operator: *operator,
                left,
                right,
            })
        }
        Value::SignedLess { left, right } => {
            let (left, right) = two_names(parent, *left, *right)?;
            Ok(Expression::SignedLess { left, right })
        }
        Value::ArithmeticShiftRight { left, right } => {
            let (left, right) = two_names(parent, *left, *right)?;
            Ok(Expression::ArithmeticShiftRight { left, right })
        }
        Value::Conditional {
            condition,
            if_true,
            if_false,
        } => conditional(parent, *condition, *if_true, *if_false),
        Value::Division {
            operator,
            left,
            right,
        } => division(parent, width, false, *operator, *left, *right),
        Value::SignedDivision {
            operator,
            left,
            right,
        } => division(parent, width, true, *operator, *left, *right),
        Value::MemoryRead { memory, address } => memory_read(parent, width, *memory, *address),
        Value::Select { of, high, low } => select(parent, *of, *high, *low),
        Value::Concatenation(parts) => Ok(Expression::Concatenation(signal_names(
            alloc,
            parent,
            parts.as_slice(),
        )?)),
        Value::Replication { count, of } => Ok(Expression::Replication {
            count: *count,
            of: signal_name(parent, *of)?,
        }),
    }
}
