// The globals that the parts of a function name.
ghost use Rattle.std.specs.Prelude.{◌≡◌, ◌++◌, IfOk};
ghost use Rattle.c_program.specs.Plain.{expression_of, expressions_of, place_of, object_place_of};
ghost use Rattle.c_program.specs.Plain.{thread_call_of, statement_of};
ghost use Rattle.global_naming.specs.Naming.{variable_globals, expression_globals, expressions_globals, place_globals};
ghost use Rattle.global_naming.specs.Naming.{object_globals, thread_call_globals, statement_globals};

use c_program::tree::{Expression, ObjectPlace, Place, Statement, Storage, ThreadCall};
use std::alloc::AllocError;

/// Appends a variable, where it is a global.
pub fn push_variable(
    storage: Storage,
    variable: u32,
    names: &mut Vec<u32>,
) -> Result<(), AllocError>
    ensures { IfOk result (λ _. names.new.items ≡ names.old.items ++ variable_globals storage variable) }
{
    if storage == Storage::Static {
        names.push(variable)?;
    }
    Ok(())
}

/// Appends the globals that an expression names, once for each time, in the order of the text.
pub fn push_expression(expression: &Expression, names: &mut Vec<u32>) -> Result<(), AllocError>
    ensures { IfOk result (λ _. names.new.items ≡ names.old.items ++ expression_globals (expression_of expression.now)) }
{
    match expression {
        Expression::Constant(_, _) | Expression::Kept(_, _) => Ok(()),
        Expression::Variable(storage, variable, _) => push_variable(*storage, *variable, names),
        Expression::Element(storage, variable, _, _, index) => {
            push_variable(*storage, *variable, names)?;
            push_expression(index, names)
        }
        Expression::Unary(_, _, inner) | Expression::Cast(_, inner) => push_expression(
            inner, names,
        ),
        Expression::Binary(_, _, left, right) | Expression::Row(left, _, right, _) => {
            push_expression(left, names)?;
            push_expression(right, names)
        }
    }
}

/// Appends the globals that expressions name.
pub fn push_expressions(expressions: &[Expression], names: &mut Vec<u32>) -> Result<(), AllocError>
    ensures { IfOk result (λ _. names.new.items ≡ names.old.items ++ expressions_globals (expressions_of expressions.now)) }
{
    for expression in expressions {
        push_expression(expression, names)?;
    }
    Ok(())
}

fn push_place(place: &Place, names: &mut Vec<u32>) -> Result<(), AllocError>
    ensures { IfOk result (λ _. names.new.items ≡ names.old.items ++ place_globals (place_of place.now)) }
{
    match place {
        Place::Scalar(storage, variable, _) => push_variable(*storage, *variable, names),
        Place::Element(storage, variable, _, _, index) => {
            push_variable(*storage, *variable, names)?;
            push_expression(index, names)
        }
    }
}

/// Appends the globals that the index of a pthread object's place names.
pub fn push_object(place: &ObjectPlace, names: &mut Vec<u32>) -> Result<(), AllocError>
    ensures { IfOk result (λ _. names.new.items ≡ names.old.items ++ object_globals (object_place_of place.now)) }
{
    match place {
        ObjectPlace::Single(_) => Ok(()),
        ObjectPlace::Element(_, _, index) => push_expression(index, names),
    }
}

/// Appends the globals that the operands of a pthread call name.
pub fn push_thread_call(call: &ThreadCall, names: &mut Vec<u32>) -> Result<(), AllocError>
    ensures { IfOk result (λ _. names.new.items ≡ names.old.items ++ thread_call_globals (thread_call_of call.now)) }
{
    match call {
        ThreadCall::Create(place, _, operand) | ThreadCall::BarrierInit(place, operand) => {
            push_object(place, names)?;
            push_expression(operand, names)
        }
        ThreadCall::Join(place)
        | ThreadCall::MutexInit(place)
        | ThreadCall::MutexDestroy(place)
        | ThreadCall::MutexLock(place)
        | ThreadCall::MutexUnlock(place)
        | ThreadCall::BarrierDestroy(place)
        | ThreadCall::BarrierWait(place) => push_object(place, names),
    }
}

/// Appends the globals that a statement names, once for each time, in the order of the text.
pub fn push_globals(statement: &Statement, names: &mut Vec<u32>) -> Result<(), AllocError>
    ensures { IfOk result (λ _. names.new.items ≡ names.old.items ++ statement_globals (statement_of statement.now)) }
{
    match statement {
        Statement::Sequence(first, second)
        | Statement::Both(first, second)
        | Statement::Either(first, second)
        | Statement::While(first, second)
        | Statement::DoWhile(first, second) => {
            push_globals(first, names)?;
            push_globals(second, names)
        }
        Statement::Block(inner) | Statement::Truth(_, inner) | Statement::Opposite(inner) =>
            push_globals(inner, names),
        Statement::Assign(_, place, right) | Statement::Update(_, place, _, _, right) => {
            push_place(place, names)?;
            push_expression(right, names)
        }
        Statement::If(condition, consequent, alternative) => {
            push_globals(condition, names)?;
            push_globals(consequent, names)?;
            push_globals(alternative, names)
        }
        Statement::For(first, condition, last, body) => {
            push_globals(first, names)?;
            push_globals(condition, names)?;
            push_globals(last, names)?;
            push_globals(body, names)
        }
        Statement::Switch(_, _, operand, body) => {
            push_expression(operand, names)?;
            push_globals(body, names)
        }
        Statement::Keep(_, _, _, operand)
        | Statement::Test(_, operand)
        | Statement::Return(_, Some(operand)) => push_expression(operand, names),
        Statement::Call(_, _, _, arguments) | Statement::Print(_, _, arguments) => {
            push_expressions(arguments, names)
        }
        Statement::Thread(_, call) => push_thread_call(call, names),
        Statement::Done
        | Statement::Empty
        | Statement::Declare(_, _, _)
        | Statement::Label(_, _)
        | Statement::Return(_, None)
        | Statement::Break
        | Statement::Continue => Ok(()),
    }
}
