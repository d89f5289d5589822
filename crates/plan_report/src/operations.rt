//! The lines of an operation.

ghost use Rattle.std.specs.Prelude.{◌≡◌, ◌++◌, OnOk, slice_index};
ghost use Rattle.std.specs.List.{flat_map};
ghost use Rattle.op_graph.specs.Graph.{kind_at};
ghost use Rattle.plan_report.specs.Operations as spec;
ghost use Rattle.plan_report.specs.Words.{type_words};

use crate::words::{put_fact, put_number, put_pair, put_type, put_word};
use block_ir::block::Operation;
use block_ir::operand::{Operand, Source};
use block_ir::plan::BlockPlan;
use c_program::tree::{BinaryOperator, UnaryOperator};
use hls_ints::CType;
use hls_io::{Bytes, put_dec};
use op_graph::node::{Kind, Node};
use std::alloc::AllocError;

fn unary_word(operator: UnaryOperator) -> &'static str
    ensures { result.now ≡ spec.unary_word operator }
{
    match operator {
        UnaryOperator::Plus => "plus",
        UnaryOperator::Minus => "minus",
        UnaryOperator::Complement => "complement",
        UnaryOperator::Not => "not",
    }
}

fn binary_word(operator: BinaryOperator) -> &'static str
    ensures { result.now ≡ spec.binary_word operator }
{
    match operator {
        BinaryOperator::Multiply => "multiply",
        BinaryOperator::Divide => "divide",
        BinaryOperator::Remainder => "remainder",
        BinaryOperator::Add => "add",
        BinaryOperator::Subtract => "subtract",
        BinaryOperator::ShiftLeft => "shift_left",
        BinaryOperator::ShiftRight => "shift_right",
        BinaryOperator::Less => "less",
        BinaryOperator::Greater => "greater",
        BinaryOperator::LessEqual => "less_equal",
        BinaryOperator::GreaterEqual => "greater_equal",
        BinaryOperator::Equal => "equal",
        BinaryOperator::NotEqual => "not_equal",
        BinaryOperator::And => "and",
        BinaryOperator::ExclusiveOr => "exclusive_or",
        BinaryOperator::InclusiveOr => "inclusive_or",
    }
}

/// Appends where a value comes from.
fn put_source(out: &mut Bytes, source: Source) -> Result<(), AllocError>
    ensures { OnOk result (out.new ≡ out.old ++ spec.source_words source) }
{
    match source {
        Source::Constant(_, value) => {
            out.put(b" constant ")?;
            put_dec(out, value)
        }
        Source::Variable(variable, _) => {
            out.put(b" variable")?;
            put_number(out, variable as u64)
        }
        Source::Value(operation, _) => {
            out.put(b" value")?;
            put_number(out, operation as u64)
        }
    }
}

fn source_type(source: Source) -> CType
    ensures { result ≡ spec.source_type source }
{
    match source {
        Source::Constant(ty, _) | Source::Variable(_, ty) | Source::Value(_, ty) => ty,
    }
}

/// Appends types.
fn put_types(out: &mut Bytes, types: &[CType]) -> Result<(), AllocError>
    ensures { OnOk result (out.new ≡ out.old ++ flat_map type_words types.now) }
{
    for ty in types {
        put_type(out, *ty)?;
    }
    Ok(())
}

/// Appends an operand behind its keyword.
pub fn put_operand_words(out: &mut Bytes, operand: &Operand) -> Result<(), AllocError>
    ensures { OnOk result (out.new ≡ out.old ++ spec.operand_words operand.now) }
{
    put_source(out, operand.source)?;
    put_type(out, source_type(operand.source))?;
    put_types(out, operand.conversions.as_slice())?;
    out.push(b'\n')
}

/// Appends the line of an operand.
pub fn put_operand(out: &mut Bytes, keyword: &[u8], operand: &Operand) -> Result<(), AllocError>
    ensures { OnOk result (out.new ≡ out.old ++ spec.operand_line keyword.now operand.now) }
{
    out.put(keyword)?;
    put_operand_words(out, operand)
}

/// Appends the line of an operator.
fn put_operator(out: &mut Bytes, k: usize, operator: &str, ty: CType) -> Result<(), AllocError>
    ensures { OnOk result (out.new ≡ out.old ++ spec.operator_line k operator.now ty) }
{
    out.put(b"operation")?;
    put_number(out, k as u64)?;
    put_word(out, operator.as_bytes())?;
    put_type(out, ty)?;
    out.push(b'\n')
}

/// Appends the line of an access.
fn put_access(
    out: &mut Bytes,
    k: usize,
    access: &[u8],
    object: u32,
    words: u64,
) -> Result<(), AllocError>
    ensures { OnOk result (out.new ≡ out.old ++ spec.access_line k access.now object words) }
{
    out.put(b"operation")?;
    put_number(out, k as u64)?;
    put_word(out, access)?;
    put_number(out, object as u64)?;
    put_number(out, words)?;
    out.push(b'\n')
}

/// Appends a read of an object of so many words.
fn put_read(
    out: &mut Bytes,
    k: usize,
    access: &[u8],
    object: u32,
    words: u64,
    index: &Operand,
) -> Result<(), AllocError>
    ensures { OnOk result (out.new ≡ out.old ++ spec.read_lines k access.now object words index.now) }
{
    put_access(out, k, access, object, words)?;
    put_operand(out, b"index", index)
}

/// Appends a write of an object of so many words.
fn put_write(
    out: &mut Bytes,
    k: usize,
    access: &[u8],
    object: u32,
    words: u64,
    index: &Operand,
    value: &Operand,
) -> Result<(), AllocError>
    ensures { OnOk result (out.new ≡ out.old ++ spec.write_lines k access.now object words index.now value.now) }
{
    put_read(out, k, access, object, words, index)?;
    put_operand(out, b"stored", value)
}

/// Appends an operation and its operands.
fn put_operation(out: &mut Bytes, k: usize, operation: &Operation) -> Result<(), AllocError>
    ensures { OnOk result (out.new ≡ out.old ++ spec.operation_lines k operation.now) }
{
    match operation {
        Operation::Unary {
            operator,
            ty,
            operand,
        } => {
            put_operator(out, k, unary_word(*operator), *ty)?;
            put_operand(out, b"operand", operand)
        }
        Operation::Binary {
            operator,
            ty,
            left,
            right,
        } => {
            put_operator(out, k, binary_word(*operator), *ty)?;
            put_operand(out, b"left", left)?;
            put_operand(out, b"right", right)
        }
        Operation::ReadGlobal {
            global,
            length,
            index,
        } => put_read(out, k, b"read_global", *global, *length, index),
        Operation::WriteGlobal {
            global,
            length,
            index,
            value,
        } => put_write(out, k, b"write_global", *global, *length, index, value),
        Operation::ReadArray {
            array,
            length,
            index,
        } => put_read(out, k, b"read_array", *array, *length, index),
        Operation::WriteArray {
            array,
            length,
            index,
            value,
        } => put_write(out, k, b"write_array", *array, *length, index, value),
    }
}

/// Appends the line of a functional unit, where the kind has units.
fn put_unit(out: &mut Bytes, kind: Kind, unit: u64) -> Result<(), AllocError>
    ensures { OnOk result (out.new ≡ out.old ++ spec.unit_line kind unit) }
{
    match kind {
        Kind::Multiply { width } => put_pair(out, b"multiplier", unit, width as u64),
        Kind::Divide {
            width,
            signed: true,
        } => put_pair(out, b"signed_divider", unit, width as u64),
        Kind::Divide {
            width,
            signed: false,
        } => put_pair(out, b"unsigned_divider", unit, width as u64),
        Kind::Simple | Kind::Global { .. } | Kind::Array { .. } => Ok(()),
    }
}

/// Appends the line of a register, where one keeps the value.
fn put_register(out: &mut Bytes, register: Option<u32>) -> Result<(), AllocError>
    ensures { OnOk result (out.new ≡ out.old ++ spec.register_line register) }
{
    match register {
        Some(register) => put_fact(out, b"register", register as u64),
        None => Ok(()),
    }
}

fn register_at(registers: &[Option<u32>], k: usize) -> Option<u32>
    ensures { result ≡ spec.register_at registers.now k }
{
    match registers.get(k) {
        Some(register) => *register,
        None => None,
    }
}

/// The number at an index, 0 past the end.
fn start_at(starts: &[u64], k: usize) -> u64
    ensures { result ≡ slice_index starts.now k }
{
    starts.get(k).copied().unwrap_or(0)
}

fn unit_at(units: &[u32], k: usize) -> u64
    ensures { result ≡ slice_index units.now k }
{
    units.get(k).copied().unwrap_or(0) as u64
}

/// Appends when an operation works, its unit and its register.
fn put_work(out: &mut Bytes, plan: &BlockPlan, kind: Kind, k: usize) -> Result<(), AllocError>
    ensures { OnOk result (out.new ≡ out.old ++ spec.work_lines plan.now kind k) }
{
    let start = start_at(plan.starts.as_slice(), k);
    let unit = unit_at(plan.units.as_slice(), k);
    let register = register_at(plan.registers.as_slice(), k);
    put_pair(out, b"works", start, kind.latency() as u64)?;
    put_unit(out, kind, unit)?;
    put_register(out, register)
}

/// The kind of an operation of a block with these nodes.
fn kind_at(nodes: &[Node], k: usize) -> Kind
    ensures { result ≡ kind_at nodes.now k }
{
    match nodes.get(k) {
        Some(node) => node.kind,
        None => Kind::Simple,
    }
}

/// Appends an operation of a block with these nodes.
pub fn put_planned(
    out: &mut Bytes,
    nodes: &[Node],
    plan: &BlockPlan,
    k: usize,
    operation: &Operation,
) -> Result<(), AllocError>
    ensures { OnOk result (out.new ≡ out.old ++ spec.planned_lines nodes.now plan.now k operation.now) }
{
    put_operation(out, k, operation)?;
    put_work(out, plan, kind_at(nodes, k), k)
}
