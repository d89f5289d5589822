// The values of the operations of a block.

ghost use Rattle.std.specs.Prelude.{◌≡◌, ◌<◌, ◌≤◌, ◌-◌, ◌^◌, ℕ, ℤ, None, slice_get, slice_index, length, List, IfOk, IsTrue};
ghost use Rattle.operator_wires.specs.Shown.{unary_result, binary_result};
ghost use Rattle.block_datapath.specs.Wired.{IsSourced, IsOperationWord, IsElementWord, IsAddress, AreGiven};
ghost use Rattle.hls_ints.specs.Types.{IntegerType};
ghost use Rattle.thread_promise.specs.View.{register_at};
ghost use Rattle.thread_promise.specs.Types.{value_type, or_int, element_type};
ghost use Rattle.block_datapath.specs.Operations.{Addresses, ReadsArray, ShowsOperation, GivesOperation, ShowsFirst};
ghost use Rattle.block_ir.specs.declared.block.Operation.TheVariants as operation;
ghost use Rattle.block_datapath.specs.Units.{shared_place};

use crate::operands::{Given, operand_word};
use crate::registers::Registers;
use crate::timing::further_states;
use crate::told::told_value;
use crate::units::shared_place;
use block_ir::block::{Block, Operation};
use block_ir::code::ThreadCode;
use block_ir::operand::Operand;
use block_ir::plan::BlockPlan;
use c_program::tree::{BinaryOperator, UnaryOperator};
use hls_ints::CType;
use netlist::netlist::Value;
use operator_wires::operators::{binary_type, unary_type};
use operator_wires::wires::Wires;
use operator_wires::words::Word;
use sqlite_items::Items;
use std::alloc::AllocError;

/// The type of the value of an operation. A write gives the int 0.
pub fn value_type(operation: &Operation, code: &ThreadCode, globals: &[CType]) -> CType
    ensures { result ≡ value_type globals.now code.now operation.now }
{
    match operation {
        Operation::Unary { operator, ty, .. } => unary_type(*operator, *ty),
        Operation::Binary { operator, ty, .. } => binary_type(*operator, *ty),
        Operation::ReadGlobal { global, .. } => global_type(globals, *global as usize),
        Operation::WriteGlobal { .. } => CType::INT,
        Operation::ReadArray { array, .. } => element_type(code, *array as usize),
        Operation::WriteArray { .. } => CType::INT,
    }
}

/// The type of the elements of a global. A number that is no global's has the type int.
pub fn global_type(globals: &[CType], global: usize) -> CType
    ensures { result ≡ or_int (slice_get globals.now global) }
{
    match globals.get(global) {
        Some(ty) => *ty,
        None => CType::INT,
    }
}

fn element_type(code: &ThreadCode, array: usize) -> CType
    ensures { result ≡ element_type (slice_get code.now.arrays array) }
{
    match code.arrays.get(array) {
        Some(own) => own.ty,
        None => CType::INT,
    }
}

/// The values of the operations of a block, each after those before it.
pub fn all_values(
    wires: &mut Wires,
    registers: &Registers,
    code: &ThreadCode,
    globals: &[CType],
    block: &Block,
    plan: &BlockPlan,
) -> Result<Items<Given>, AllocError>
    ensures shows { IfOk result (ShowsFirst globals.now code.now registers.now block.now plan.now wires.old.signals wires.new.signals (length block.now.operations)) }
    ensures wired { IfOk result (AreGiven wires.old.signals wires.new.signals code.now registers.now) }
{
    let mut values = Items::new(wires.alloc);
    let operations = block.operations.as_slice();
    for operation in operations {
        let number = values.len();
        let earlier = values.as_slice();
        let given = given_value(
            wires, registers, code, globals, earlier, plan, number, operation,
        )?;
        values.push(given)?;
    }
    Ok(values)
}

fn given_value(
    wires: &mut Wires,
    registers: &Registers,
    code: &ThreadCode,
    globals: &[CType],
    values: &[Given],
    plan: &BlockPlan,
    number: usize,
    operation: &Operation,
) -> Result<Given, AllocError>
    ensures shows { IfOk result (GivesOperation wires.old.signals wires.new.signals globals.now code.now registers.now values.now plan.now number operation.now) }
    ensures wired { IfOk result (λ given. IsOperationWord wires.old.signals wires.new.signals code.now registers.now values.now
        (value_type globals.now code.now operation.now) given.word) }
{
    let start = start_of(plan, number);
    let last = start.saturating_add(further_states(operation));
    let unit = unit_of(plan, number) as usize;
    let word = operation_word(
        wires, registers, code, globals, values, unit, start, last, operation,
    )?;
    let register = register_of(plan, number);
    Ok(Given {
        word: Word::of_type(word.place, value_type(operation, code, globals)),
        last,
        register,
    })
}

/// The state in which an operation starts.
pub fn start_of(plan: &BlockPlan, number: usize) -> u64
    ensures { result ≡ slice_index plan.now.starts number }
{
    start_at(plan.starts.as_slice(), number)
}

fn start_at(starts: &[u64], number: usize) -> u64
    ensures { result ≡ slice_index starts.now number }
{
    starts.get(number).copied().unwrap_or(0)
}

/// The number of the unit of an operation among those of its kind.
pub fn unit_of(plan: &BlockPlan, number: usize) -> u32
    ensures { result ≡ slice_index plan.now.units number }
{
    unit_at(plan.units.as_slice(), number)
}

fn unit_at(units: &[u32], number: usize) -> u32
    ensures { result ≡ slice_index units.now number }
{
    units.get(number).copied().unwrap_or(0)
}

/// The register that a plan gives a value, if it does.
pub fn register_of(plan: &BlockPlan, number: usize) -> Option<u32>
    ensures { result ≡ register_at plan.now.registers number }
{
    plan.registers.get(number).copied().flatten()
}

/// The word of an operation, right in its last state.
fn operation_word(
    wires: &mut Wires,
    registers: &Registers,
    code: &ThreadCode,
    globals: &[CType],
    values: &[Given],
    unit: usize,
    start: u64,
    last: u64,
    operation: &Operation,
) -> Result<Word, AllocError>
    ensures shows { IfOk result (ShowsOperation wires.old.signals wires.new.signals globals.now code.now registers.now values.now unit start last operation.now) }
    ensures wired { IfOk result (IsOperationWord wires.old.signals wires.new.signals code.now registers.now values.now (value_type globals.now code.now operation.now)) }
{
    match operation {
        Operation::Unary {
            operator,
            ty,
            operand,
        } => unary_value(
            wires, registers, code, values, last, *operator, *ty, operand,
        ),
        Operation::Binary {
            operator,
            ty,
            left,
            right,
        } => shared_value(
            wires, registers, code, values, unit, last, *operator, *ty, left, right,
        ),
        Operation::ReadArray { array, index, .. } => {
            element_value(
                wires,
                registers,
                code,
                values,
                start,
                *array as usize,
                index,
            )
        }
        Operation::ReadGlobal { global, index, .. } => {
            told_value(
                wires,
                registers,
                code,
                globals,
                values,
                last,
                *global as usize,
                index,
            )
        }
        Operation::WriteGlobal { .. } => wires.constant_word(CType::INT, 0),
        Operation::WriteArray { .. } => wires.constant_word(CType::INT, 0),
    }
}

fn unary_value(
    wires: &mut Wires,
    registers: &Registers,
    code: &ThreadCode,
    values: &[Given],
    last: u64,
    operator: UnaryOperator,
    ty: CType,
    operand: &Operand,
) -> Result<Word, AllocError>
    ensures shows { IfOk result (λ out. (globals : List IntegerType) (unit start : ℕ) →
        ShowsOperation wires.old.signals wires.new.signals globals code.now registers.now values.now unit start last (operation.Unary operator ty operand.now) out) }
    ensures wired { IfOk result (IsSourced wires.old.signals wires.new.signals code.now.variables registers.now values.now (unary_result operator ty)) }
{
    let types = code.variables.as_slice();
    let word = operand_word(wires, registers, types, values, operand, last)?;
    wires.unary(operator, ty, word)
}

/// The value of an operator: the result of the unit of that number, if it shares one, and else that of an operator of
/// its own.
fn shared_value(
    wires: &mut Wires,
    registers: &Registers,
    code: &ThreadCode,
    values: &[Given],
    unit: usize,
    last: u64,
    operator: BinaryOperator,
    ty: CType,
    left: &Operand,
    right: &Operand,
) -> Result<Word, AllocError>
    ensures shows { IfOk result (λ out. (globals : List IntegerType) (start : ℕ) → ShowsOperation wires.old.signals wires.new.signals globals code.now registers.now values.now
        unit start last (operation.Binary operator ty left.now right.now) out) }
    ensures wired { IfOk result (IsSourced wires.old.signals wires.new.signals code.now.variables registers.now values.now (binary_result operator ty)) }
{
    match shared_place(registers.units.as_slice(), operator, ty, left, right, unit) {
        Some(place) => Ok(Word::of_type(place, ty)),
        None => binary_value(
            wires, registers, code, values, last, operator, ty, left, right,
        ),
    }
}

fn binary_value(
    wires: &mut Wires,
    registers: &Registers,
    code: &ThreadCode,
    values: &[Given],
    last: u64,
    operator: BinaryOperator,
    ty: CType,
    left: &Operand,
    right: &Operand,
) -> Result<Word, AllocError>
    ensures shows { IfOk result (λ out. (globals : List IntegerType) (unit start : ℕ) → shared_place registers.now.units operator ty left.now right.now unit ≡ None →
        ShowsOperation wires.old.signals wires.new.signals globals code.now registers.now values.now unit start last (operation.Binary operator ty left.now right.now) out) }
    ensures wired { IfOk result (IsSourced wires.old.signals wires.new.signals code.now.variables registers.now values.now (binary_result operator ty)) }
{
    let types = code.variables.as_slice();
    let first = operand_word(wires, registers, types, values, left, last)?;
    let second = operand_word(wires, registers, types, values, right, last)?;
    wires.binary_word(operator, ty, first, second)
}

/// An element of an array.
fn element_value(
    wires: &mut Wires,
    registers: &Registers,
    code: &ThreadCode,
    values: &[Given],
    start: u64,
    array: usize,
    index: &Operand,
) -> Result<Word, AllocError>
    ensures shows { IfOk result (λ out. (globals : List IntegerType) (unit last n : ℕ) →
        ShowsOperation wires.old.signals wires.new.signals globals code.now registers.now values.now unit start last (operation.ReadArray array n index.now) out) }
    ensures wired { IfOk result (IsOperationWord wires.old.signals wires.new.signals code.now registers.now values.now (element_type (slice_get code.now.arrays array))) }
{
    let types = code.variables.as_slice();
    let word = operand_word(wires, registers, types, values, index, start)?;
    read_array(wires, code, array, word)
}

fn read_array(
    wires: &mut Wires,
    code: &ThreadCode,
    array: usize,
    index: Word,
) -> Result<Word, AllocError>
    ensures shows { IfOk result (ReadsArray wires.old.signals wires.new.signals code.now array index) }
    ensures wired { IfOk result (IsElementWord wires.old.signals wires.new.signals code.now array index) }
{
    let Some(own) = code.arrays.get(array).copied() else {
        return wires.constant_word(CType::INT, 0);
    };
    let address = address(wires, index, own.length)?;
    let value = Value::MemoryRead {
        memory: array,
        address,
    };
    let place = wires.wire(u64::from(own.ty.bits()), value)?;
    Ok(Word::of_type(place, own.ty))
}

/// An index, wide enough for the number of words of a memory.
pub fn address(wires: &mut Wires, index: Word, length: u64) -> Result<usize, AllocError>
    ensures shows { IfOk result (Addresses wires.old.signals wires.new.signals index length) }
    ensures wired { IfOk result (IsAddress wires.old.signals wires.new.signals index length) }
{
    if is_wide_enough(index.width, length) {
        Ok(index.place)
    } else {
        wires.resized(index.place, index.width, 64, index.signed)
    }
}

fn is_wide_enough(width: u64, length: u64) -> bool
    ensures room { IsTrue result → length < 2 ^ width }
    ensures half { IsTrue result → length < 2 ^ 31 → length ≤ 2 ^ (width - 1) }
{
    match width {
        64 => true,
        32 => length < 2147483648,
        _ => false,
    }
}
