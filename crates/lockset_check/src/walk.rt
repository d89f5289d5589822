// The walk over the text of a thread's function, calls included.
ghost use Rattle.std.specs.Prelude.{◌≡◌, Some, None, IfOk};
ghost use Rattle.c_program.specs.Plain.{program_of, statement_of, expressions_of};
ghost use Rattle.lock_discipline.specs.Sets.{Sets as LockSets};
ghost use Rattle.lock_discipline.specs.Walk as spec;
ghost use Rattle.lockset_check.specs.Views.{passed_of, labels_of, walker_of};
ghost use Rattle.lockset_check.specs.Walked.{walked, called, met, met_call, kept_around, both_walked, if_walked, for_walked, plain_call};

use crate::accesses::{assign, read, read_all, read_old, read_operands};
use crate::inside::lower;
use crate::loops::join_loop;
use crate::progress::{Progress, Seen, Walker};
use crate::sets::Sets;
use c_program::tree::{Expression, Program, Statement};
use sqlite_items::at;
use std::alloc::{AllocError, Global};

/// Walks a statement, in which calls are less than so deep. Where it is a part of a switch, labels has what is so at each label.
#[cycle(walk)]
fn walk(
    alloc: Global,
    program: &Program,
    walker: Walker,
    depth: usize,
    labels: Option<&Sets>,
    statement: &Statement,
    progress: &mut Progress,
) -> Result<(), AllocError>
    ensures { IfOk result (λ _. passed_of progress.new ≡ spec.behind (passed_of progress.old) (walked (program_of program.now) (walker_of walker) depth (labels_of labels.entry) (statement_of statement.now))) }
{
    match statement {
        Statement::Sequence(first, rest) => {
            walk_both(alloc, program, walker, depth, labels, first, rest, progress)
        }
        Statement::Block(body) => walk(alloc, program, walker, depth, None, body, progress),
        Statement::Assign(offset, place, e) => {
            read(alloc, walker, *offset, e, progress)?;
            assign(alloc, walker, *offset, place, progress)
        }
        Statement::Update(offset, place, _, _, e) => {
            read(alloc, walker, *offset, e, progress)?;
            read_old(alloc, walker, *offset, place, progress)?;
            assign(alloc, walker, *offset, place, progress)
        }
        Statement::Call(offset, None, function, arguments) => walk_plain(
            alloc, program, walker, depth, *offset, *function, arguments, progress,
        ),
        Statement::If(condition, consequent, alternative) => {
            lower(program, depth, condition, &mut progress.at);
            walk_if(
                alloc,
                program,
                walker,
                depth,
                condition,
                consequent,
                alternative,
                progress,
            )
        }
        Statement::While(condition, body) | Statement::DoWhile(body, condition) => {
            lower(program, depth, statement, &mut progress.at);
            ask(alloc, program, walker, depth, condition, progress)?;
            walk_around(alloc, program, walker, depth, body, progress)
        }
        Statement::For(first, condition, last, body) => {
            if let Some(thread) = join_loop(first, condition, last, body) {
                progress.at.join(thread);
                return Ok(());
            }
            lower(program, depth, statement, &mut progress.at);
            walk_for(
                alloc, program, walker, depth, first, condition, last, body, progress,
            )
        }
        Statement::Switch(offset, _, operand, body) => {
            lower(program, depth, body, &mut progress.at);
            read(alloc, walker, *offset, operand, progress)?;
            walk_labels(alloc, program, walker, depth, body, progress)
        }
        Statement::Label(_, _) => progress.come(alloc, labels),
        Statement::Return(_, None) => progress.leave(alloc),
        Statement::Return(offset, Some(e)) => {
            read(alloc, walker, *offset, e, progress)?;
            progress.leave(alloc)
        }
        Statement::Print(offset, _, arguments) => {
            read_all(alloc, walker, *offset, arguments, progress)
        }
        Statement::Thread(offset, call) => {
            read_operands(alloc, walker, *offset, call, progress)?;
            progress.at.pass(call);
            Ok(())
        }
        Statement::Call(_, Some(_), _, _)
        | Statement::Keep(_, _, _, _)
        | Statement::Truth(_, _)
        | Statement::Test(_, _)
        | Statement::Both(_, _)
        | Statement::Either(_, _)
        | Statement::Opposite(_) => {
            lower(program, depth, statement, &mut progress.at);
            ask(alloc, program, walker, depth, statement, progress)
        }
        _ => Ok(()),
    }
}

/// Two statements, one behind the other.
#[cycle(walk)]
fn walk_both(
    alloc: Global,
    program: &Program,
    walker: Walker,
    depth: usize,
    labels: Option<&Sets>,
    first: &Statement,
    rest: &Statement,
    progress: &mut Progress,
) -> Result<(), AllocError>
    ensures { IfOk result (λ _. passed_of progress.new ≡ spec.behind (passed_of progress.old) (both_walked (program_of program.now) (walker_of walker) depth (labels_of labels.entry) (statement_of first.now) (statement_of rest.now))) }
{
    walk(alloc, program, walker, depth, labels, first, progress)?;
    walk(alloc, program, walker, depth, labels, rest, progress)?;
    Ok(())
}

/// An if, from what is so once its condition is asked.
#[cycle(walk)]
fn walk_if(
    alloc: Global,
    program: &Program,
    walker: Walker,
    depth: usize,
    condition: &Statement,
    consequent: &Statement,
    alternative: &Statement,
    progress: &mut Progress,
) -> Result<(), AllocError>
    ensures { IfOk result (λ _. passed_of progress.new ≡ spec.behind (passed_of progress.old) (if_walked (program_of program.now) (walker_of walker) depth (statement_of condition.now) (statement_of consequent.now) (statement_of alternative.now))) }
{
    ask(alloc, program, walker, depth, condition, progress)?;
    let before = progress.at.copy(alloc)?;
    walk(alloc, program, walker, depth, None, consequent, progress)?;
    let after = progress.put_at(before);
    walk(alloc, program, walker, depth, None, alternative, progress)?;
    progress.meet(alloc, after)?;
    Ok(())
}

/// A for that is no join loop, from what is so throughout.
#[cycle(walk)]
fn walk_for(
    alloc: Global,
    program: &Program,
    walker: Walker,
    depth: usize,
    first: &Statement,
    condition: &Statement,
    last: &Statement,
    body: &Statement,
    progress: &mut Progress,
) -> Result<(), AllocError>
    ensures { IfOk result (λ _. passed_of progress.new ≡ spec.behind (passed_of progress.old) (for_walked (program_of program.now) (walker_of walker) depth (statement_of first.now) (statement_of condition.now) (statement_of last.now) (statement_of body.now))) }
{
    ask(alloc, program, walker, depth, condition, progress)?;
    walk_around(alloc, program, walker, depth, first, progress)?;
    walk_around(alloc, program, walker, depth, last, progress)?;
    walk_around(alloc, program, walker, depth, body, progress)?;
    Ok(())
}

/// A part of a loop, from what is so throughout; that is so behind it too.
#[cycle(walk)]
fn walk_around(
    alloc: Global,
    program: &Program,
    walker: Walker,
    depth: usize,
    part: &Statement,
    progress: &mut Progress,
) -> Result<(), AllocError>
    ensures { IfOk result (λ _. passed_of progress.new ≡ kept_around (passed_of progress.old) (walked (program_of program.now) (walker_of walker) depth None (statement_of part.now))) }
{
    let before = progress.at.copy(alloc)?;
    walk(alloc, program, walker, depth, None, part, progress)?;
    progress.at = before;
    Ok(())
}

/// The body of a switch, from what is so at each label; that is so behind it too.
#[cycle(walk)]
fn walk_labels(
    alloc: Global,
    program: &Program,
    walker: Walker,
    depth: usize,
    body: &Statement,
    progress: &mut Progress,
) -> Result<(), AllocError>
    ensures { IfOk result (λ _. passed_of progress.new ≡ kept_around (passed_of progress.old) (λ (s : LockSets). walked (program_of program.now) (walker_of walker) depth (Some s) (statement_of body.now) s)) }
{
    let labels = progress.at.copy(alloc)?;
    walk(alloc, program, walker, depth, Some(&labels), body, progress)?;
    progress.at = labels;
    Ok(())
}

/// A call that is a statement.
#[cycle(walk)]
fn walk_plain(
    alloc: Global,
    program: &Program,
    walker: Walker,
    depth: usize,
    offset: u32,
    function: u32,
    arguments: &[Expression],
    progress: &mut Progress,
) -> Result<(), AllocError>
    ensures { IfOk result (λ _. passed_of progress.new ≡ spec.behind (passed_of progress.old) (plain_call (program_of program.now) (walker_of walker) depth offset function (expressions_of arguments.now))) }
{
    read_all(alloc, walker, offset, arguments, progress)?;
    walk_call(alloc, program, walker, depth, function as usize, progress)?;
    Ok(())
}

/// A condition, or what is evaluated before a step, at what is so throughout.
#[cycle(walk)]
fn ask(
    alloc: Global,
    program: &Program,
    walker: Walker,
    depth: usize,
    condition: &Statement,
    progress: &mut Progress,
) -> Result<(), AllocError>
    ensures { IfOk result (λ _. passed_of progress.new ≡ spec.with_seen (passed_of progress.old) (met (program_of program.now) (walker_of walker) depth (passed_of progress.old).after (statement_of condition.now))) }
{
    match condition {
        Statement::Test(offset, operand) | Statement::Keep(offset, _, _, operand) => {
            read(alloc, walker, *offset, operand, progress)
        }
        Statement::Call(offset, _, function, arguments) => ask_call(
            alloc, program, walker, depth, *offset, *function, arguments, progress,
        ),
        Statement::Truth(_, inner) | Statement::Opposite(inner) => {
            ask(alloc, program, walker, depth, inner, progress)
        }
        Statement::Sequence(first, second)
        | Statement::Both(first, second)
        | Statement::Either(first, second) => {
            ask(alloc, program, walker, depth, first, progress)?;
            ask(alloc, program, walker, depth, second, progress)
        }
        Statement::If(condition, consequent, alternative) => {
            ask(alloc, program, walker, depth, condition, progress)?;
            ask(alloc, program, walker, depth, consequent, progress)?;
            ask(alloc, program, walker, depth, alternative, progress)
        }
        _ => Ok(()),
    }
}

/// A call whose value is used, at what is so throughout.
#[cycle(walk)]
fn ask_call(
    alloc: Global,
    program: &Program,
    walker: Walker,
    depth: usize,
    offset: u32,
    function: u32,
    arguments: &[Expression],
    progress: &mut Progress,
) -> Result<(), AllocError>
    ensures { IfOk result (λ _. passed_of progress.new ≡ spec.with_seen (passed_of progress.old) (met_call (program_of program.now) (walker_of walker) depth (passed_of progress.old).after offset function (expressions_of arguments.now))) }
{
    read_all(alloc, walker, offset, arguments, progress)?;
    let before = progress.at.copy(alloc)?;
    walk_call(alloc, program, walker, depth, function as usize, progress)?;
    progress.at = before;
    Ok(())
}

/// A call: the function's body, up to where it has returned.
#[cycle(walk)]
pub(crate) fn walk_call(
    alloc: Global,
    program: &Program,
    walker: Walker,
    depth: usize,
    function: usize,
    progress: &mut Progress,
) -> Result<(), AllocError>
    ensures { IfOk result (λ _. passed_of progress.new ≡ spec.behind (passed_of progress.old) (called (program_of program.now) (walker_of walker) depth function)) }
{
    if depth == 0 {
        progress.seen.push(Seen::TooDeep)?;
        return Ok(());
    }
    match at(&program.functions, function) {
        Some(code) => {
            let outer = progress.enter();
            walk(
                alloc,
                program,
                walker,
                depth - 1,
                None,
                &code.body,
                progress,
            )?;
            progress.end(alloc, outer)?;
            Ok(())
        }
        None => Ok(()),
    }
}
