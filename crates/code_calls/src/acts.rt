// Acts: a step that evaluates their operands, and the act itself.

ghost use Rattle.std.specs.Prelude.{◌≡◌, ℕ, suc, true, IfNone, IfOk, IfSome, OnOk, [], ◌∷◌, ◌+◌, ◌*◌, length, IfErr};
ghost use Rattle.hls_ints.specs.Types.{long_int};
ghost use Rattle.c_program.specs.Plain.{expression_of, expressions_of, object_place_of, pieces_of, thread_call_of};
ghost use Rattle.c_program.specs.Resolved as resolved;
ghost use Rattle.c_program.specs.Tree as tree;
ghost use Rattle.c_program.specs.Weight.{expression_weight, expressions_weight, object_place_weight, thread_call_weight};
ghost use Rattle.code_blocks.specs.Assigning as assigning;
ghost use Rattle.code_blocks.specs.Evaluating as evaluating;
ghost use Rattle.code_blocks.specs.Room.{IsFull};
ghost use Rattle.code_places.specs.Doing as doing;
ghost use Rattle.code_calls.specs.Acts as acts;

use block_ir::block::Operation;
use block_ir::code::{Act, ActOperand};
use block_ir::operand::{Operand, Source};
use c_program::tree::{BinaryOperator, Expression, ObjectPlace, Piece, ThreadCall};
use code_blocks::expressions::lower_expression;
use code_blocks::fault::{LoweringFault, number_of};
use code_blocks::homes::Home;
use code_blocks::open_block::OpenBlock;
use code_blocks::operands::{converted, plain};
use code_blocks::printing::{conversions_of, lower_values, word_operands};
use code_places::lowering::Lowering;
use code_storage::objects::{Objects, first_of};
use hls_ints::CType;
use std::alloc::{AllocError, Global};

/// The number of an element of an array of objects: the index is added to the number of the first.
fn element_number(
    alloc: Global,
    homes: &[Home],
    block: &mut OpenBlock,
    first: u32,
    index: &Expression,
) -> Result<Operand, LoweringFault>
    ensures value { IfOk result (λ a. (object length : ℕ) → evaluating.Evaluates homes.now
        (acts.number_expression first (tree.ObjectPlace.Element object length (expression_of index.now))) block.old block.new a) }
    ensures full { IfErr result (IsFull (length block.old.operations + (3 * expression_weight (expression_of index.now) + 2))) }
{
    let left = {
        let value = lower_expression(alloc, homes, block, index)?;
        converted(alloc, &value, CType::LONG)?
    };
    let right = plain(alloc, Source::Constant(CType::LONG, i128::from(first)));
    let operation = Operation::Binary {
        operator: BinaryOperator::Add,
        ty: CType::LONG,
        left,
        right,
    };
    let number = block.put(alloc, operation, CType::LONG)?;
    Ok(number)
}

/// The value is put into a variable of 64 bits.
fn put_word(
    alloc: Global,
    block: &mut OpenBlock,
    variable: u32,
    value: &Operand,
) -> Result<(), AllocError>
    ensures { IfOk result (λ _. assigning.StoresVariable variable long_int value.now block.old block.new) }
{
    let word = converted(alloc, value, CType::LONG)?;
    block.set(variable, word)
}

/// The number of an object: where it is an element, its number is put into the variable.
fn lower_object(
    alloc: Global,
    homes: &[Home],
    block: &mut OpenBlock,
    variable: u32,
    first: u32,
    place: &ObjectPlace,
) -> Result<ActOperand, LoweringFault>
    ensures operand { IfOk result (λ o. o ≡ acts.number_operand variable first (object_place_of place.now)) }
    ensures puts { IfOk result (λ _. acts.PutsNumber homes.now variable first (object_place_of place.now) block.old block.new) }
    ensures full { IfErr result (IsFull (length block.old.operations + 3 * object_place_weight (object_place_of place.now))) }
{
    match place {
        ObjectPlace::Single(_) => Ok(ActOperand::Constant(CType::LONG, i128::from(first))),
        ObjectPlace::Element(_, _, index) => {
            let number = element_number(alloc, homes, block, first, index)?;
            put_word(alloc, block, variable, &number)?;
            Ok(ActOperand::Variable(variable, CType::LONG))
        }
    }
}

/// The object that a call names.
fn place_of(call: &ThreadCall) -> &ObjectPlace
    ensures { object_place_of result.now ≡ acts.place_of (thread_call_of call.now) }
{
    match call {
        ThreadCall::Create(place, _, _)
        | ThreadCall::Join(place)
        | ThreadCall::MutexInit(place)
        | ThreadCall::MutexDestroy(place)
        | ThreadCall::MutexLock(place)
        | ThreadCall::MutexUnlock(place)
        | ThreadCall::BarrierInit(place, _)
        | ThreadCall::BarrierDestroy(place)
        | ThreadCall::BarrierWait(place) => place,
    }
}

fn object_of(place: &ObjectPlace) -> u32
    ensures { result ≡ resolved.object_of (object_place_of place.now) }
{
    match place {
        ObjectPlace::Single(object) | ObjectPlace::Element(object, _, _) => *object,
    }
}

/// The number of the first element of the object that a call names.
fn first_of_call(objects: &Objects, call: &ThreadCall) -> u32
    ensures { result ≡ acts.first_of_call objects.now (thread_call_of call.now) }
{
    let object = object_of(place_of(call));
    match call {
        ThreadCall::Create(_, _, _) | ThreadCall::Join(_) => {
            first_of(objects.threads.as_slice(), object)
        }
        ThreadCall::MutexInit(_)
        | ThreadCall::MutexDestroy(_)
        | ThreadCall::MutexLock(_)
        | ThreadCall::MutexUnlock(_) => first_of(objects.mutexes.as_slice(), object),
        ThreadCall::BarrierInit(_, _)
        | ThreadCall::BarrierDestroy(_)
        | ThreadCall::BarrierWait(_) => first_of(objects.barriers.as_slice(), object),
    }
}

/// The argument of a create, or the count of a barrier.
fn value_of(call: &ThreadCall) -> Option<&Expression>
    ensures none { IfNone result (acts.values_of (thread_call_of call.now) ≡ []) }
    ensures some { IfSome result (λ e. acts.values_of (thread_call_of call.now) ≡ expression_of e.now ∷ []) }
{
    match call {
        ThreadCall::Create(_, _, value) | ThreadCall::BarrierInit(_, value) => Some(value),
        ThreadCall::Join(_)
        | ThreadCall::MutexInit(_)
        | ThreadCall::MutexDestroy(_)
        | ThreadCall::MutexLock(_)
        | ThreadCall::MutexUnlock(_)
        | ThreadCall::BarrierDestroy(_)
        | ThreadCall::BarrierWait(_) => None,
    }
}

/// What the argument of a create, or the count of a barrier, comes to is put into a variable of 64 bits.
fn lower_value(
    alloc: Global,
    homes: &[Home],
    block: &mut OpenBlock,
    variable: u32,
    call: &ThreadCall,
) -> Result<(), LoweringFault>
    ensures puts { IfOk result (λ _. acts.PutsIfAny homes.now variable (acts.values_of (thread_call_of call.now)) block.old block.new) }
    ensures full { IfErr result (IsFull (length block.old.operations + (3 * expressions_weight (acts.values_of (thread_call_of call.now)) + 1))) }
{
    let Some(value) = value_of(call) else {
        return Ok(());
    };
    let value = lower_expression(alloc, homes, block, value)?;
    put_word(alloc, block, variable, &value)?;
    Ok(())
}

/// The act of a call on an object, and with that value, if it takes one.
fn act_on(call: &ThreadCall, object: ActOperand, value: ActOperand) -> Act
    ensures { result ≡ acts.act_on (thread_call_of call.now) object value }
{
    match call {
        ThreadCall::Create(_, _, _) => Act::Create {
            thread: object,
            argument: value,
        },
        ThreadCall::Join(_) => Act::Join { thread: object },
        ThreadCall::MutexInit(_) => Act::MutexInit { mutex: object },
        ThreadCall::MutexDestroy(_) => Act::MutexDestroy { mutex: object },
        ThreadCall::MutexLock(_) => Act::MutexLock { mutex: object },
        ThreadCall::MutexUnlock(_) => Act::MutexUnlock { mutex: object },
        ThreadCall::BarrierInit(_, _) => Act::BarrierInit {
            barrier: object,
            count: value,
        },
        ThreadCall::BarrierDestroy(_) => Act::BarrierDestroy { barrier: object },
        ThreadCall::BarrierWait(_) => Act::BarrierWait { barrier: object },
    }
}

/// The act of a pthread call, whose operands are at hand after the block: the number of an element in the variable of that
/// number, that of another object as a constant, and a value in the variable behind it.
fn lower_call(
    alloc: Global,
    homes: &[Home],
    objects: &Objects,
    block: &mut OpenBlock,
    first: u32,
    call: &ThreadCall,
) -> Result<Act, LoweringFault>
    ensures act { IfOk result (λ act. act ≡ acts.act_at first objects.now (thread_call_of call.now)) }
    ensures prepares { IfOk result (λ _. acts.PreparesCall homes.now objects.now first (thread_call_of call.now) block.old block.new) }
    ensures typed { IfOk result (λ _. acts.WorksOnCall homes.now objects.now first (thread_call_of call.now) block.old block.new) }
    ensures full { IfErr result (IsFull (length block.old.operations + first + 4 * (thread_call_weight (thread_call_of call.now) + 1))) }
{
    let number = first_of_call(objects, call);
    let object = lower_object(alloc, homes, block, first, number, place_of(call))?;
    let next = number_of(first as usize)?;
    lower_value(alloc, homes, block, next + 1, call)?;
    let value = ActOperand::Variable(next + 1, CType::LONG);
    Ok(act_on(call, object, value))
}

/// A pthread call: a step that evaluates its operands, and the act.
pub fn lower_thread_call(
    alloc: Global,
    code: &mut Lowering,
    call: &ThreadCall,
) -> Result<(), LoweringFault>
    requires reached { code.old.reached ≡ true }
    ensures labels { OnOk result ((around : _) → doing.Proceeds around code.old code.new) }
    ensures lowers { IfOk result (λ _. (offset : ℕ) (P : _) (around : _) → doing.LowersHere P around
        (tree.Statement.Thread offset (thread_call_of call.now)) code.old code.new) }
    ensures full { IfErr result (IsFull
        (length code.old.block.operations + code.old.block.steps + length code.old.variables + 4 * (thread_call_weight (thread_call_of call.now) + 1))) }
{
    let first = code.first_word()?;
    let act = lower_call(
        alloc,
        code.homes.as_slice(),
        &code.objects,
        &mut code.block,
        first,
        call,
    )?;
    code.block.step()?;
    code.act(alloc, act)?;
    Ok(())
}

/// A printf: a step that evaluates its arguments, each converted to its conversion's type, and the act.
pub fn lower_print(
    alloc: Global,
    code: &mut Lowering,
    format: &[Piece],
    arguments: &[Expression],
) -> Result<(), LoweringFault>
    requires reached { code.old.reached ≡ true }
    ensures labels { OnOk result ((around : _) → doing.Proceeds around code.old code.new) }
    ensures lowers { IfOk result (λ _. (offset : ℕ) (P : _) (around : _) → doing.LowersHere P around
        (tree.Statement.Print offset (pieces_of format.now) (expressions_of arguments.now)) code.old code.new) }
    ensures full { IfErr result (IsFull
        (length code.old.block.operations + code.old.block.steps + length code.old.variables + code.old.site
        + (3 * expressions_weight (expressions_of arguments.now) + 2 * length arguments.now + 1))) }
{
    let first = code.first_word()?;
    {
        let types = conversions_of(alloc, format)?;
        let words = types.as_slice();
        let homes = code.homes.as_slice();
        lower_values(alloc, homes, &mut code.block, first, words, arguments)?;
    }
    code.block.step()?;
    let site = code.site();
    code.skip_sites(1)?;
    let values = word_operands(alloc, first, arguments.len())?;
    code.act(alloc, Act::Print { site, values })?;
    Ok(())
}
