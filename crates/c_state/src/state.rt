// The state of a program between two steps, and the one at the start.
ghost use Rattle.std.specs.Prelude.{◌≡◌, ◌++◌, ◌∷◌, map, replicate, IfOk, slice_get};
ghost use Rattle.std.specs.List.{flat_map};
ghost use Rattle.c_program.specs.Plain.{function_of, global_of, program_of};
ghost use Rattle.thread_semantics.specs.State.{fresh_locals, begun, started, first_values, first_mutex, first_mutexes, start, Unused, Running, NoBarrier};
ghost use Rattle.c_evaluation.specs.Outcome.{rows_of};
ghost use Rattle.c_state.specs.Fresh.{fresh_row};
ghost use Rattle.c_state.specs.View.{frame_of, slot_of, barrier_of, state_of};

use crate::place::{barrier_elements, thread_elements};
use c_evaluation::work::{Item, put, settle};
use c_program::tree::{Function, GlobalVariable, LocalVariable, MutexObject, Program};
use hls_ints::wrap;
use hls_io::Bytes;
use std::alloc::{AllocError, Global};
use std::collections::VecDeque;
use thread_semantics::MutexState;

/// A call under way: the number of its function, its locals (none where an element isn't written), what it has still to
/// do, and the values that its last step kept for the next one.
pub struct Frame<'p> {
    pub function: u32,
    pub locals: Vec<Vec<Option<i128>>>,
    pub work: VecDeque<Item<'p>>,
    pub kept: Vec<i128>,
}

/// A thread id; a running thread has its calls, the innermost first.
pub enum Slot<'p> {
    Unused,
    Running(VecDeque<Frame<'p>>),
    Finished,
}

/// A barrier: uninitialised, or its count and the threads that wait there.
pub enum Barrier {
    Uninitialised,
    Awaits(i128, Vec<u32>),
}

/// The state of a program: the elements of its globals, its threads (main is thread 0), the elements of its mutexes and
/// barriers, what was printed, and whether main has returned.
#[derive(Drop)]
pub struct State<'p> {
    pub globals: Vec<Vec<i128>>,
    pub slots: Vec<Slot<'p>>,
    pub mutexes: Vec<MutexState>,
    pub barriers: Vec<Barrier>,
    pub output: Bytes,
    pub ended: bool,
}

// A drop that is written here is proved here; a derived one is proved again in each crate that drops the type.

impl<'p> Drop for Frame<'p> {
    fn drop(self) {
        let Frame {
            function: _,
            locals: _,
            work: _,
            kept: _,
        } = self;
    }
}

impl<'p> Drop for Slot<'p> {
    fn drop(self) {
        match self {
            Slot::Unused => {}
            Slot::Running(_) => {}
            Slot::Finished => {}
        }
    }
}

impl Drop for Barrier {
    fn drop(self) {
        match self {
            Barrier::Uninitialised => {}
            Barrier::Awaits(_, _) => {}
        }
    }
}

/// A local of a call: a parameter with its argument, or no element is written.
fn fresh_local(
    alloc: Global,
    local: LocalVariable,
    argument: Option<i128>,
) -> Result<Vec<Option<i128>>, AllocError>
    ensures { IfOk result (λ row. row.items ≡ fresh_row local argument) }
{
    match argument {
        None => {
            let row: Vec<Option<i128>> = vec![in alloc; None; local.length as usize]?;
            Ok(row)
        }
        Some(v) => {
            let mut row = Vec::new(alloc);
            row.push(Some(wrap(local.ty, v)))?;
            Ok(row)
        }
    }
}

fn argument_at(arguments: &[i128], k: usize) -> Option<i128>
    ensures { result ≡ slice_get arguments.now k }
{
    arguments.get(k).copied()
}

/// The locals of a call: the parameters have the arguments, converted to their types (C99 6.5.2.2).
fn fresh_locals(
    alloc: Global,
    locals: &[LocalVariable],
    arguments: &[i128],
) -> Result<Vec<Vec<Option<i128>>>, AllocError>
    ensures { IfOk result (λ rows. rows_of rows.items ≡ fresh_locals locals.now arguments.now) }
{
    let mut rows = Vec::new(alloc);
    for (k, local) in locals.iter().enumerate() {
        let row = fresh_local(alloc, *local, argument_at(arguments, k))?;
        rows.push(row)?;
    }
    Ok(rows)
}

/// A call of a function that begins.
pub fn begin<'p>(
    alloc: Global,
    code: &'p Function,
    function: u32,
    arguments: &[i128],
) -> Result<Frame<'p>, AllocError>
    ensures { IfOk result (λ f. frame_of f ≡ begun (function_of code.now) function arguments.now) }
{
    let locals = fresh_locals(alloc, &code.locals, arguments)?;
    let mut work = VecDeque::new(alloc);
    put(&mut work, Item::Do(&code.body))?;
    settle(&mut work)?;
    Ok(Frame {
        function,
        locals,
        work,
        kept: Vec::new(alloc),
    })
}

/// The calls of a thread that begins with a function: none where there is no such function.
pub fn begin_thread<'p>(
    alloc: Global,
    program: &'p Program,
    function: u32,
    arguments: &[i128],
) -> Result<Slot<'p>, AllocError>
    ensures { IfOk result (λ slot. slot_of slot ≡ Running (started (slice_get (program_of program.now).functions function) function arguments.now)) }
{
    let mut frames = VecDeque::new(alloc);
    if let Some(code) = program.functions.get(function as usize) {
        let frame = begin(alloc, code, function, arguments)?;
        frames.push_front(frame)?;
    }
    Ok(Slot::Running(frames))
}

/// The elements of a global at the start (C99 6.7.8).
fn first_values(alloc: Global, global: &GlobalVariable) -> Result<Vec<i128>, AllocError>
    ensures { IfOk result (λ row. row.items ≡ first_values (global_of global.now)) }
{
    let mut row = Vec::from_slice(alloc, &global.initial)?;
    let missing = (global.length as usize).saturating_sub(global.initial.len());
    let zeros = vec![in alloc; 0i128; missing]?;
    row.extend_from_slice(&zeros)?;
    Ok(row)
}

fn first_globals(alloc: Global, globals: &[GlobalVariable]) -> Result<Vec<Vec<i128>>, AllocError>
    ensures { IfOk result (λ rows. rows_of rows.items ≡ map first_values (map global_of globals.now)) }
{
    let mut rows = Vec::new(alloc);
    for global in globals {
        let row = first_values(alloc, global)?;
        rows.push(row)?;
    }
    Ok(rows)
}

/// The thread ids: main runs, and so many others are unused.
fn first_slots<'p>(alloc: Global, main: Slot<'p>, others: u128) -> Result<Vec<Slot<'p>>, AllocError>
    ensures { IfOk result (λ slots. map slot_of slots.items ≡ slot_of main.entry ∷ replicate others Unused) }
{
    let mut slots = Vec::new(alloc);
    slots.push(main)?;
    for _ in 0..others {
        slots.push(Slot::Unused)?;
    }
    Ok(slots)
}

fn first_mutex(initialised: bool) -> MutexState
    ensures { result ≡ first_mutex initialised }
{
    if initialised {
        MutexState::Free
    } else {
        MutexState::Uninitialised
    }
}

/// Appends the states of the mutexes of an object.
fn push_mutexes(object: &MutexObject, mutexes: &mut Vec<MutexState>) -> Result<(), AllocError>
    ensures { IfOk result (λ _. mutexes.new.items ≡ mutexes.old.items ++ first_mutexes object.now) }
{
    let state = first_mutex(object.initialised);
    for _ in 0..object.length {
        mutexes.push(state)?;
    }
    Ok(())
}

fn first_mutexes(alloc: Global, objects: &[MutexObject]) -> Result<Vec<MutexState>, AllocError>
    ensures { IfOk result (λ mutexes. mutexes.items ≡ flat_map first_mutexes objects.now) }
{
    let mut mutexes = Vec::new(alloc);
    for object in objects {
        push_mutexes(object, &mut mutexes)?;
    }
    Ok(mutexes)
}

fn first_barriers(alloc: Global, count: u128) -> Result<Vec<Barrier>, AllocError>
    ensures { IfOk result (λ barriers. map barrier_of barriers.items ≡ replicate count NoBarrier) }
{
    let mut barriers = Vec::new(alloc);
    for _ in 0..count {
        barriers.push(Barrier::Uninitialised)?;
    }
    Ok(barriers)
}

/// The state at the start: main's first call, before its first step.
pub fn start<'p>(alloc: Global, program: &'p Program) -> Result<State<'p>, AllocError>
    ensures { IfOk result (λ s. state_of s ≡ start (program_of program.now)) }
{
    let globals = first_globals(alloc, &program.globals)?;
    let main = begin_thread(alloc, program, program.main, &[])?;
    let slots = first_slots(alloc, main, thread_elements(&program.threads))?;
    let mutexes = first_mutexes(alloc, &program.mutexes)?;
    let barriers = first_barriers(alloc, barrier_elements(&program.barriers))?;
    Ok(State {
        globals,
        slots,
        mutexes,
        barriers,
        output: Bytes::new(alloc),
        ended: false,
    })
}
