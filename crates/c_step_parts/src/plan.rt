// The thread's own part of its next step, given its innermost call and the globals.
ghost use Rattle.std.specs.Prelude.{◌≡◌, IfOk, [], ◌∷◌, drop, None, slice_get};
ghost use Rattle.c_program.specs.Tree.{Program as Programs};
ghost use Rattle.c_program.specs.Plain.{expression_of, expressions_of, returned_of, thread_call_of, statement_of, boxed_statement_of, program_of};
ghost use Rattle.thread_semantics.specs.Memory.{Evaluation};
ghost use Rattle.thread_semantics.specs.Value.{value};
ghost use Rattle.thread_semantics.specs.Work.{settled, Onward, noted};
ghost use Rattle.thread_semantics.specs.Move.{Assignment as Assignments, stored, called, prepared, truth_in, operand_move, switch_move, statement_move};
ghost use Rattle.thread_semantics.specs.Move.{work_move, end_offset, going_on, act_of as act_of_call, Acts};
ghost use Rattle.c_evaluation.specs.Outcome.{outcome, list_result};
ghost use Rattle.c_evaluation.specs.View.{item_of, act_of, work_of};
ghost use Rattle.c_state.specs.View.{frame_of, state_of, memory_in, later_work};
ghost use Rattle.c_state.specs.Change.{ok_of, assignment_view, changed_locals, change_write};
ghost use Rattle.c_step_parts.specs.Planned.{IsPlanned};
ghost use Rattle.c_step_parts.specs.Plan.{Integers, Locals, Callers, erased, going, plan_of, return_move};

use c_evaluation::evaluate::{evaluate, evaluate_all};
use c_evaluation::work::{Act, Item, decide, noted, put, settle, switch};
use c_program::tree::{Expression, Program, Statement, ThreadCall};
use c_state::memory::Change;
use c_state::place::{Assignment, assigned, kept, operands, update};
use c_state::state::{Frame, State, begin};
use c_state::threads::{innermost, running, waits};
use hls_ints::{CType, wrap};
use std::alloc::{AllocError, Global};
use std::collections::VecDeque;
use thread_semantics::{BlockedCause, UndefinedCause};

/// The thread's own part of a step.
#[derive(Drop)]
pub enum Plan<'p> {
    /// The innermost call goes on with this work and these kept values, after a change of memory.
    Onward(VecDeque<Item<'p>>, Vec<i128>, Change),
    /// The innermost call waits with this work for the call that begins.
    Enter(VecDeque<Item<'p>>, Frame<'p>),
    /// The innermost call returns at that offset, with a value or none.
    Return(u32, Option<i128>),
    /// An act, by the statement at that offset, on the values that are kept; then the innermost call goes on.
    Perform(u32, Act<'p>, VecDeque<Item<'p>>),
    Fault(u32, UndefinedCause),
    /// The innermost call is one that no program comes to.
    Impossible,
}

/// The work after its first item.
pub fn rest_of<'p>(work: &VecDeque<Item<'p>>) -> Result<VecDeque<Item<'p>>, AllocError>
    ensures { IfOk result (λ rest. rest.items ≡ drop 1 work.now.items) }
{
    let mut rest = work.clone()?;
    rest.pop_front();
    Ok(rest)
}

/// The innermost call goes on after its first item.
fn go_on<'p>(alloc: Global, frame: &Frame<'p>, change: Change) -> Result<Plan<'p>, AllocError>
    ensures { IfOk result (λ m. (P : Programs) (fs : Callers) → plan_of P m (frame_of frame.now) fs
        ≡ going change (settled Onward (later_work frame.now)) [] (frame_of frame.now) fs) }
{
    let mut work = rest_of(&frame.work)?;
    settle(&mut work)?;
    Ok(Plan::Onward(work, Vec::new(alloc), change))
}

/// A value is stored, by the statement at that offset.
fn store<'p>(
    alloc: Global,
    frame: &Frame<'p>,
    offset: u32,
    assignment: Result<Assignment, UndefinedCause>,
) -> Result<Plan<'p>, AllocError>
    ensures { IfOk result (λ m. (P : Programs) (fs : Callers) (e : Evaluation Assignments) → ok_of assignment_view assignment ≡ outcome e
        → plan_of P m (frame_of frame.now) fs ≡ erased (stored offset e (frame_of frame.now) fs (later_work frame.now))) }
{
    match assignment {
        Ok(assignment) => go_on(alloc, frame, Change::Stored(assignment)),
        Err(cause) => Ok(Plan::Fault(offset, cause)),
    }
}

/// A function is called; its value, if it is used, goes to the local that keeps it.
fn call<'p>(
    alloc: Global,
    program: &'p Program,
    frame: &Frame<'p>,
    globals: &[Vec<i128>],
    offset: u32,
    into: Option<u32>,
    function: u32,
    arguments: &[Expression],
) -> Result<Plan<'p>, AllocError>
    ensures { IfOk result (λ m. (fs : Callers) → plan_of (program_of program.now) m (frame_of frame.now) fs
        ≡ erased (called (program_of program.now) offset into function (expressions_of arguments.now)
        (memory_in frame.now globals.now) (frame_of frame.now) fs (later_work frame.now))) }
{
    match evaluate_all(alloc, arguments, &frame.locals, globals)? {
        Err(cause) => Ok(Plan::Fault(offset, cause)),
        Ok(values) => {
            let Some(code) = program.functions.get(function as usize) else {
                return Ok(Plan::Impossible);
            };
            let callee = begin(alloc, code, function, &values)?;
            let mut work = rest_of(&frame.work)?;
            put(&mut work, Item::Take(into))?;
            Ok(Plan::Enter(work, callee))
        }
    }
}

/// The operands of printf or of a pthread call are evaluated; its act is next.
fn prepare<'p>(
    frame: &Frame<'p>,
    offset: u32,
    act: Act<'p>,
    operands: Result<Vec<i128>, UndefinedCause>,
) -> Result<Plan<'p>, AllocError>
    ensures { IfOk result (λ m. (P : Programs) (fs : Callers) (e : Evaluation Integers) → list_result operands ≡ outcome e
        → plan_of P m (frame_of frame.now) fs ≡ erased (prepared offset (act_of act.entry) e (frame_of frame.now) fs (later_work frame.now))) }
{
    match operands {
        Err(cause) => Ok(Plan::Fault(offset, cause)),
        Ok(operands) => {
            let mut work = rest_of(&frame.work)?;
            put(&mut work, Item::Perform(offset, act))?;
            Ok(Plan::Onward(work, operands, Change::Nothing))
        }
    }
}

/// The act of a pthread call.
fn act_of_call<'p>(call: &'p ThreadCall) -> Act<'p>
    ensures { act_of result ≡ act_of_call (thread_call_of call.now) }
{
    match call {
        ThreadCall::Create(_, routine, _) => Act::Create(*routine),
        ThreadCall::Join(_) => Act::Join,
        ThreadCall::MutexInit(_) => Act::MutexInit,
        ThreadCall::MutexDestroy(_) => Act::MutexDestroy,
        ThreadCall::MutexLock(_) => Act::MutexLock,
        ThreadCall::MutexUnlock(_) => Act::MutexUnlock,
        ThreadCall::BarrierInit(_, _) => Act::BarrierInit,
        ThreadCall::BarrierDestroy(_) => Act::BarrierDestroy,
        ThreadCall::BarrierWait(_) => Act::BarrierWait,
    }
}

/// A return.
fn return_plan<'p>(
    frame: &Frame<'p>,
    globals: &[Vec<i128>],
    offset: u32,
    right: &Option<Box<Expression>>,
) -> Plan<'p>
    ensures { (P : Programs) (fs : Callers) → plan_of P result (frame_of frame.now) fs
        ≡ erased (return_move P offset (returned_of right.now) (memory_in frame.now globals.now) (frame_of frame.now) fs (later_work frame.now)) }
{
    match right {
        None => Plan::Return(offset, None),
        Some(value) => match evaluate(value, &frame.locals, globals) {
            Err(cause) => Plan::Fault(offset, cause),
            Ok(v) => Plan::Return(offset, Some(v)),
        },
    }
}

/// What the truth of an operand changes: that of a `&&` or `||` that is a value is kept.
fn noted_change(work: &VecDeque<Item>, truth: bool) -> Change
    ensures locals { (rows : Locals) → changed_locals result rows ≡ truth_in (noted truth (work_of work.now.items)) rows }
    ensures write { change_write result ≡ None }
{
    match noted(work, truth) {
        None => Change::Nothing,
        Some((slot, kept)) => Change::Kept(slot, kept as i128),
    }
}

/// An operand of a condition is evaluated, and its truth goes to what waits for it.
fn test_plan<'p>(
    alloc: Global,
    frame: &Frame<'p>,
    globals: &[Vec<i128>],
    offset: u32,
    operand: &Expression,
) -> Result<Plan<'p>, AllocError>
    ensures { IfOk result (λ m. (P : Programs) (fs : Callers) → plan_of P m (frame_of frame.now) fs
        ≡ erased (operand_move offset (value (expression_of operand.now) (memory_in frame.now globals.now)) (frame_of frame.now) fs (later_work frame.now))) }
{
    match evaluate(operand, &frame.locals, globals) {
        Err(cause) => Ok(Plan::Fault(offset, cause)),
        Ok(v) => {
            let mut work = rest_of(&frame.work)?;
            let change = noted_change(&work, v != 0);
            decide(&mut work, v != 0)?;
            Ok(Plan::Onward(work, Vec::new(alloc), change))
        }
    }
}

/// A switch goes to its label.
fn switch_plan<'p>(
    alloc: Global,
    frame: &Frame<'p>,
    globals: &[Vec<i128>],
    offset: u32,
    ty: CType,
    operand: &Expression,
    body: &'p Box<Statement>,
) -> Result<Plan<'p>, AllocError>
    ensures { IfOk result (λ m. (P : Programs) (fs : Callers) → plan_of P m (frame_of frame.now) fs
        ≡ erased (switch_move offset ty (value (expression_of operand.now) (memory_in frame.now globals.now)) (boxed_statement_of body.now)
        (frame_of frame.now) fs (later_work frame.now))) }
{
    match evaluate(operand, &frame.locals, globals) {
        Err(cause) => Ok(Plan::Fault(offset, cause)),
        Ok(v) => {
            let mut work = rest_of(&frame.work)?;
            switch(wrap(ty, v), body, &mut work)?;
            Ok(Plan::Onward(work, Vec::new(alloc), Change::Nothing))
        }
    }
}

/// A statement or declarator, a cut or an operand takes its step.
fn statement_plan<'p>(
    alloc: Global,
    program: &'p Program,
    frame: &Frame<'p>,
    globals: &[Vec<i128>],
    statement: &'p Statement,
) -> Result<Plan<'p>, AllocError>
    ensures { IfOk result (λ m. (fs : Callers) → plan_of (program_of program.now) m (frame_of frame.now) fs
        ≡ erased (statement_move (program_of program.now)
        (memory_in frame.now globals.now) (frame_of frame.now) fs (later_work frame.now) (statement_of statement.now))) }
{
    match statement {
        Statement::Declare(_, x, _) => go_on(alloc, frame, Change::Blanked(*x)),
        Statement::Assign(offset, place, right) => {
            let assignment = assigned(place, right, &frame.locals, globals);
            store(alloc, frame, *offset, assignment)
        }
        Statement::Update(offset, place, operator, ty, right) => {
            let assignment = update(place, *operator, *ty, right, &frame.locals, globals);
            store(alloc, frame, *offset, assignment)
        }
        Statement::Call(offset, into, function, arguments) => {
            call(
                alloc, program, frame, globals, *offset, *into, *function, arguments,
            )
        }
        Statement::Keep(offset, slot, ty, operand) => {
            let assignment = kept(*slot, *ty, operand, &frame.locals, globals);
            store(alloc, frame, *offset, assignment)
        }
        Statement::Test(offset, operand) => test_plan(alloc, frame, globals, *offset, operand),
        Statement::Switch(offset, ty, operand, body) => {
            switch_plan(alloc, frame, globals, *offset, *ty, operand, body)
        }
        Statement::Return(offset, right) => Ok(return_plan(frame, globals, *offset, right)),
        Statement::Print(offset, format, arguments) => {
            let operands = evaluate_all(alloc, arguments, &frame.locals, globals)?;
            prepare(frame, *offset, Act::Print(format), operands)
        }
        Statement::Thread(offset, call) => {
            let operands = operands(alloc, program, call, &frame.locals, globals)?;
            prepare(frame, *offset, act_of_call(call), operands)
        }
        _ => Ok(Plan::Impossible),
    }
}

/// An act is next.
fn act_plan<'p>(frame: &Frame<'p>, offset: u32, act: Act<'p>) -> Result<Plan<'p>, AllocError>
    ensures { IfOk result (λ m. (P : Programs) (fs : Callers) → plan_of P m (frame_of frame.now) fs
        ≡ Acts offset (act_of act.entry) frame.now.kept.items (going_on (frame_of frame.now) (later_work frame.now) ∷ fs)) }
{
    let mut work = rest_of(&frame.work)?;
    settle(&mut work)?;
    Ok(Plan::Perform(offset, act, work))
}

/// The offset of the closing brace of a function.
fn end_of(program: &Program, function: u32) -> u32
    ensures { result ≡ end_offset (slice_get (program_of program.now).functions function) }
{
    match program.functions.get(function as usize) {
        Some(code) => code.end,
        None => 0,
    }
}

/// The thread's own part of its next step, where its innermost call has to do this item first.
fn item_plan<'p>(
    alloc: Global,
    program: &'p Program,
    frame: &Frame<'p>,
    globals: &[Vec<i128>],
    item: Item<'p>,
) -> Result<Plan<'p>, AllocError>
    ensures { IfOk result (λ m. (fs : Callers) → plan_of (program_of program.now) m (frame_of frame.now) fs
        ≡ erased (work_move (program_of program.now) (memory_in frame.now globals.now) (frame_of frame.now) fs (item_of item.entry ∷ later_work frame.now))) }
{
    match item {
        Item::Do(statement) => statement_plan(alloc, program, frame, globals, statement),
        Item::Perform(offset, act) => act_plan(frame, offset, act),
        _ => Ok(Plan::Impossible),
    }
}

/// The thread's own part of its next step, where this is its innermost call.
fn call_plan<'p>(
    alloc: Global,
    program: &'p Program,
    frame: &Frame<'p>,
    globals: &[Vec<i128>],
) -> Result<Plan<'p>, AllocError>
    ensures { IfOk result (λ m. (fs : Callers) → plan_of (program_of program.now) m (frame_of frame.now) fs
        ≡ erased (work_move (program_of program.now) (memory_in frame.now globals.now) (frame_of frame.now) fs (work_of frame.now.work.items))) }
{
    match frame.work.front() {
        None => Ok(Plan::Return(end_of(program, frame.function), None)),
        Some(item) => item_plan(alloc, program, frame, globals, *item),
    }
}

/// The thread's own part of the next step of thread i, any number, where it runs and doesn't wait at a barrier; else why
/// it is blocked.
pub fn next_plan<'p>(
    alloc: Global,
    program: &'p Program,
    s: &State<'p>,
    i: u128,
) -> Result<Result<Plan<'p>, BlockedCause>, AllocError>
    ensures { IfOk result (λ r. IsPlanned (program_of program.now) (state_of s.now) i r) }
{
    let Some(frames) = running(&s.slots, i) else {
        return Ok(Err(BlockedCause::NotRunning));
    };
    if waits(i, &s.barriers) {
        return Ok(Err(BlockedCause::Barrier));
    }
    match innermost(frames) {
        None => Ok(Err(BlockedCause::NotRunning)),
        Some(frame) => {
            let plan = call_plan(alloc, program, frame, &s.globals)?;
            Ok(Ok(plan))
        }
    }
}
