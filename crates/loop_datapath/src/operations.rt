// The words of the operations of a loop.

ghost use Rattle.std.specs.Prelude.{ℕ, length, slice_get, List, IfOk};
ghost use Rattle.hls_ints.specs.Types.{IntegerType};
ghost use Rattle.operator_wires.specs.Shown.{unary_result, binary_result};
ghost use Rattle.block_ir.specs.declared.block.Operation.TheVariants as operation;
ghost use Rattle.thread_promise.specs.Types.{value_type, element_type};
ghost use Rattle.loop_datapath.specs.Operations.{ShowsOperationIn, ShowsWords};
ghost use Rattle.block_datapath.specs.Operations.{ReadsArray};
ghost use Rattle.block_datapath.specs.Wired.{IsElementWord};
ghost use Rattle.loop_datapath.specs.Wired.{IsWordIn, IsOperationIn, AreWordsAdded};

use crate::rounds::operand_in;
use crate::times::{LoopTimes, OperationTime, time_at};
use block_datapath::operations::{address, value_type};
use block_datapath::registers::Registers;
use block_ir::block::{Block, Operation};
use block_ir::code::ThreadCode;
use block_ir::operand::Operand;
use c_program::tree::{BinaryOperator, UnaryOperator};
use hls_ints::CType;
use netlist::netlist::Value;
use operator_wires::wires::Wires;
use operator_wires::words::Word;
use sqlite_items::Items;
use std::alloc::AllocError;

/// The words of the operations of a loop, each right in its last state. Of each round a bit tells whether it has begun.
pub fn loop_words(
    wires: &mut Wires,
    registers: &Registers,
    code: &ThreadCode,
    globals: &[CType],
    turn: &Block,
    times: &LoopTimes,
    rounds: &[usize],
) -> Result<Items<Word>, AllocError>
    ensures shows { IfOk result (ShowsWords globals.now code.now registers.now turn.now times.now rounds.now wires.old.signals wires.new.signals
        (length turn.now.operations)) }
    ensures wired { IfOk result (AreWordsAdded wires.old.signals wires.new.signals code.now registers.now rounds.now times.now.stages) }
{
    let mut words = Items::new(wires.alloc);
    for operation in turn.operations.as_slice() {
        let time = time_at(times, words.len());
        let word = operation_in(
            wires,
            registers,
            code,
            globals,
            turn,
            times,
            words.as_slice(),
            rounds,
            time,
            operation,
        )?;
        let ty = value_type(operation, code, globals);
        words.push(Word::of_type(word.place, ty))?;
    }
    Ok(words)
}

/// The word of an operation, right in its last state. An access of a global, which no loop has, is a 0, as a write is.
fn operation_in(
    wires: &mut Wires,
    registers: &Registers,
    code: &ThreadCode,
    globals: &[CType],
    turn: &Block,
    times: &LoopTimes,
    words: &[Word],
    rounds: &[usize],
    time: OperationTime,
    operation: &Operation,
) -> Result<Word, AllocError>
    ensures shows { IfOk result (ShowsOperationIn globals.now code.now registers.now turn.now times.now wires.old.signals wires.new.signals words.now rounds.now
        time.stage time.phase operation.now) }
    ensures wired { IfOk result (IsOperationIn wires.old.signals wires.new.signals code.now registers.now words.now rounds.now times.now.stages
        (value_type globals.now code.now operation.now)) }
{
    match operation {
        Operation::Unary {
            operator,
            ty,
            operand,
        } => unary_in(
            wires, registers, code, turn, times, words, rounds, time, *operator, *ty, operand,
        ),
        Operation::Binary {
            operator,
            ty,
            left,
            right,
        } => binary_in(
            wires, registers, code, turn, times, words, rounds, time, *operator, *ty, left, right,
        ),
        Operation::ReadArray { array, index, .. } => element_in(
            wires,
            registers,
            code,
            turn,
            times,
            words,
            rounds,
            time,
            *array as usize,
            index,
        ),
        _ => wires.constant_word(value_type(operation, code, globals), 0),
    }
}

fn unary_in(
    wires: &mut Wires,
    registers: &Registers,
    code: &ThreadCode,
    turn: &Block,
    times: &LoopTimes,
    words: &[Word],
    rounds: &[usize],
    time: OperationTime,
    operator: UnaryOperator,
    ty: CType,
    operand: &Operand,
) -> Result<Word, AllocError>
    ensures shows { IfOk result (λ out. (globals : List IntegerType) → ShowsOperationIn globals code.now registers.now turn.now times.now wires.old.signals wires.new.signals
        words.now rounds.now time.stage time.phase (operation.Unary operator ty operand.now) out) }
    ensures wired { IfOk result (IsWordIn wires.old.signals wires.new.signals code.now.variables registers.now words.now rounds.now times.now.stages
        (unary_result operator ty)) }
{
    let types = code.variables.as_slice();
    let word = operand_in(
        wires, registers, types, turn, times, words, rounds, time, operand,
    )?;
    wires.unary(operator, ty, word)
}

fn binary_in(
    wires: &mut Wires,
    registers: &Registers,
    code: &ThreadCode,
    turn: &Block,
    times: &LoopTimes,
    words: &[Word],
    rounds: &[usize],
    time: OperationTime,
    operator: BinaryOperator,
    ty: CType,
    left: &Operand,
    right: &Operand,
) -> Result<Word, AllocError>
    ensures shows { IfOk result (λ out. (globals : List IntegerType) → ShowsOperationIn globals code.now registers.now turn.now times.now wires.old.signals wires.new.signals
        words.now rounds.now time.stage time.phase (operation.Binary operator ty left.now right.now) out) }
    ensures wired { IfOk result (IsWordIn wires.old.signals wires.new.signals code.now.variables registers.now words.now rounds.now times.now.stages
        (binary_result operator ty)) }
{
    let types = code.variables.as_slice();
    let first = operand_in(
        wires, registers, types, turn, times, words, rounds, time, left,
    )?;
    let second = operand_in(
        wires, registers, types, turn, times, words, rounds, time, right,
    )?;
    wires.binary_word(operator, ty, first, second)
}

/// An element of an array.
fn element_in(
    wires: &mut Wires,
    registers: &Registers,
    code: &ThreadCode,
    turn: &Block,
    times: &LoopTimes,
    words: &[Word],
    rounds: &[usize],
    time: OperationTime,
    array: usize,
    index: &Operand,
) -> Result<Word, AllocError>
    ensures shows { IfOk result (λ out. (globals : List IntegerType) (n : ℕ) → ShowsOperationIn globals code.now registers.now turn.now times.now wires.old.signals
        wires.new.signals words.now rounds.now time.stage time.phase (operation.ReadArray array n index.now) out) }
    ensures wired { IfOk result (IsOperationIn wires.old.signals wires.new.signals code.now registers.now words.now rounds.now times.now.stages
        (element_type (slice_get code.now.arrays array))) }
{
    let types = code.variables.as_slice();
    let word = operand_in(
        wires, registers, types, turn, times, words, rounds, time, index,
    )?;
    read_array(wires, code, array, word)
}

// As in `block_datapath`, where this function is to be public.
fn read_array(
    wires: &mut Wires,
    code: &ThreadCode,
    array: usize,
    index: Word,
) -> Result<Word, AllocError>
    ensures shows { IfOk result (ReadsArray wires.old.signals wires.new.signals code.now array index) }
    ensures wired { IfOk result (IsElementWord wires.old.signals wires.new.signals code.now array index) }
{
    let Some(own) = code.arrays.get(array).copied() else {
        return wires.constant_word(CType::INT, 0);
    };
    let address = address(wires, index, own.length)?;
    let value = Value::MemoryRead {
        memory: array,
        address,
    };
    let place = wires.wire(u64::from(own.ty.bits()), value)?;
    Ok(Word::of_type(place, own.ty))
}
