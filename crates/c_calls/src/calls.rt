// Calls of functions of the text, of printf and of POSIX threads, as statements (C99 6.5.2.2). The cuts of their arguments stand before them.

ghost use Rattle.std.specs.Prelude.{◌≡◌, option_map, IfOk};
ghost use Rattle.c_program.specs.Plain.{object_place_of, pieces_of, boxed_statement_of, thread_call_of};
ghost use Rattle.c_program.specs.Resolved.{object_of};
ghost use Rattle.c_rules.specs.Walks.{Walks};
ghost use Rattle.c_expressions.specs.Cuts.{cuts_of};
ghost use Rattle.c_calls.specs.Calls as spec;

use crate::arguments::{
    address_argument, null_argument, pointer_argument, routine_argument, thread_argument,
    value_argument,
};
use c_expressions::callees::{function_name, library_name, no_function};
use c_expressions::cuts::Cuts;
use c_expressions::expressions::{
    argument_offset, argument_values, look_at_argument, look_at_arguments,
};
use c_expressions::sequences::behind_cuts;
use c_program::tree as resolved;
use c_rules::fault::Rule;
use c_rules::findings::Findings;
use c_rules::format::{conversions, pieces};
use c_rules::library::LibraryFunction;
use c_rules::names::{Known, Meaning, ObjectKind, Scope};
use c_tree::{Argument, Call};
use std::alloc::{AllocError, Global};

/// The kind of object that a call with one object has.
fn object_kind(function: LibraryFunction) -> ObjectKind
    ensures { result ≡ spec.object_kind function }
{
    match function {
        LibraryFunction::BarrierDestroy | LibraryFunction::BarrierWait => ObjectKind::Barrier,
        _ => ObjectKind::Mutex,
    }
}

/// A call with one object.
fn on_object(function: LibraryFunction, place: resolved::ObjectPlace) -> resolved::ThreadCall
    ensures { thread_call_of result ≡ spec.on_object function (object_place_of place) }
{
    match function {
        LibraryFunction::MutexDestroy => resolved::ThreadCall::MutexDestroy(place),
        LibraryFunction::MutexLock => resolved::ThreadCall::MutexLock(place),
        LibraryFunction::MutexUnlock => resolved::ThreadCall::MutexUnlock(place),
        LibraryFunction::BarrierDestroy => resolved::ThreadCall::BarrierDestroy(place),
        _ => resolved::ThreadCall::BarrierWait(place),
    }
}

/// The number of the object that a place names.
fn object_number(place: &resolved::ObjectPlace) -> u32
    ensures { result ≡ object_of (object_place_of place.now) }
{
    match place {
        resolved::ObjectPlace::Single(number) => *number,
        resolved::ObjectPlace::Element(number, _, _) => *number,
    }
}

/// The pieces of the format that the argument is; none where it is none of the profile.
fn format(alloc: Global, argument: &Argument) -> Result<Option<Vec<resolved::Piece>>, AllocError>
    ensures { IfOk result (λ r. option_map (λ v. pieces_of v.items) r ≡ spec.format argument.now) }
{
    match argument {
        Argument::Text(bytes, _) if !bytes.is_empty() => pieces(alloc, bytes.as_slice()),
        _ => Ok(None),
    }
}

/// Whether a printf with the format may have so many values.
fn takes(format: &Option<Vec<resolved::Piece>>, values: usize) -> bool
    ensures { result ≡ spec.takes (option_map (λ v. pieces_of v.items) format.now) values }
{
    match format {
        Some(pieces) => conversions(pieces.as_slice()) == values && values <= 4,
        None => false,
    }
}

/// A pthread call as a statement, behind the cuts of its arguments.
fn thread_statement(
    alloc: Global,
    at: u32,
    cuts: Cuts,
    call: resolved::ThreadCall,
) -> Result<Box<resolved::Statement>, AllocError>
    ensures { IfOk result (λ s. boxed_statement_of s ≡ spec.thread_call at (cuts_of cuts) (thread_call_of call)) }
{
    let call = Box::new(alloc, call)?;
    behind_cuts(alloc, cuts.before, resolved::Statement::Thread(at, call))
}

/// No cut of a statement yet.
fn no_cuts(alloc: Global, scope: &Scope<'_>) -> Cuts
    ensures { cuts_of result ≡ spec.no_cuts scope.now }
{
    Cuts::free_from(alloc, scope.kept_from)
}

/// A call with the wrong number of arguments.
#[tactic(auto, unfolding(crate::specs::Calls::looked_call))]
fn looked_call(
    alloc: Global,
    scope: &Scope<'_>,
    found: &mut Findings,
    arguments: &[Argument],
) -> Result<Box<resolved::Statement>, AllocError>
    ensures { Walks boxed_statement_of (spec.looked_call scope.now arguments.now found.old) result found.new }
{
    look_at_arguments(alloc, scope, found, arguments)?;
    resolved::Statement::Empty.boxed(alloc)
}

/// `pthread_create`; one that names no routine is no statement.
#[tactic(auto, unfolding(crate::specs::Calls::create_call, crate::specs::Calls::create, crate::specs::Calls::created))]
fn create_call(
    alloc: Global,
    scope: &Scope<'_>,
    found: &mut Findings,
    at: u32,
    arguments: &[Argument],
) -> Result<Box<resolved::Statement>, AllocError>
    ensures { Walks boxed_statement_of (spec.create_call scope.now at arguments.now found.old) result found.new }
{
    let [thread, attributes, routine, value] = arguments else {
        return looked_call(alloc, scope, found, arguments);
    };
    let mut cuts = no_cuts(alloc, scope);
    let thread = address_argument(
        alloc,
        scope,
        found,
        &mut cuts,
        at,
        ObjectKind::Thread,
        thread,
    )?;
    null_argument(alloc, scope, found, attributes)?;
    let routine = routine_argument(alloc, scope, found, routine)?;
    let value = pointer_argument(alloc, scope, found, &mut cuts, at, value)?;
    let value = Box::new(alloc, value)?;
    let Some((number, offset)) = routine else {
        return resolved::Statement::Empty.boxed(alloc);
    };
    found.add_creation(object_number(&thread), number, offset)?;
    thread_statement(
        alloc,
        at,
        cuts,
        resolved::ThreadCall::Create(thread, number, value),
    )
}

/// `pthread_join`
#[tactic(auto, unfolding(crate::specs::Calls::join_call, crate::specs::Calls::join))]
fn join_call(
    alloc: Global,
    scope: &Scope<'_>,
    found: &mut Findings,
    at: u32,
    arguments: &[Argument],
) -> Result<Box<resolved::Statement>, AllocError>
    ensures { Walks boxed_statement_of (spec.join_call scope.now at arguments.now found.old) result found.new }
{
    let [thread, outcome] = arguments else {
        return looked_call(alloc, scope, found, arguments);
    };
    let mut cuts = no_cuts(alloc, scope);
    let thread = thread_argument(alloc, scope, found, &mut cuts, at, thread)?;
    null_argument(alloc, scope, found, outcome)?;
    thread_statement(alloc, at, cuts, resolved::ThreadCall::Join(thread))
}

/// `pthread_exit`, which is a return
#[tactic(auto, unfolding(crate::specs::Calls::exit_call, crate::specs::Calls::exit))]
fn exit_call(
    alloc: Global,
    scope: &Scope<'_>,
    found: &mut Findings,
    at: u32,
    arguments: &[Argument],
) -> Result<Box<resolved::Statement>, AllocError>
    ensures { Walks boxed_statement_of (spec.exit_call scope.now at arguments.now found.old) result found.new }
{
    let [value] = arguments else {
        return looked_call(alloc, scope, found, arguments);
    };
    let mut cuts = no_cuts(alloc, scope);
    let value = pointer_argument(alloc, scope, found, &mut cuts, at, value)?;
    let value = Box::new(alloc, value)?;
    behind_cuts(
        alloc,
        cuts.before,
        resolved::Statement::Return(at, Some(value)),
    )
}

/// `pthread_mutex_init`
#[tactic(auto, unfolding(crate::specs::Calls::mutex_init_call, crate::specs::Calls::mutex_init))]
fn mutex_init_call(
    alloc: Global,
    scope: &Scope<'_>,
    found: &mut Findings,
    at: u32,
    arguments: &[Argument],
) -> Result<Box<resolved::Statement>, AllocError>
    ensures { Walks boxed_statement_of (spec.mutex_init_call scope.now at arguments.now found.old) result found.new }
{
    let [mutex, attributes] = arguments else {
        return looked_call(alloc, scope, found, arguments);
    };
    let mut cuts = no_cuts(alloc, scope);
    let mutex = address_argument(alloc, scope, found, &mut cuts, at, ObjectKind::Mutex, mutex)?;
    null_argument(alloc, scope, found, attributes)?;
    thread_statement(alloc, at, cuts, resolved::ThreadCall::MutexInit(mutex))
}

/// `pthread_barrier_init`
#[tactic(auto, unfolding(crate::specs::Calls::barrier_init_call, crate::specs::Calls::barrier_init))]
fn barrier_init_call(
    alloc: Global,
    scope: &Scope<'_>,
    found: &mut Findings,
    at: u32,
    arguments: &[Argument],
) -> Result<Box<resolved::Statement>, AllocError>
    ensures { Walks boxed_statement_of (spec.barrier_init_call scope.now at arguments.now found.old) result found.new }
{
    let [barrier, attributes, count] = arguments else {
        return looked_call(alloc, scope, found, arguments);
    };
    let mut cuts = no_cuts(alloc, scope);
    let barrier = address_argument(
        alloc,
        scope,
        found,
        &mut cuts,
        at,
        ObjectKind::Barrier,
        barrier,
    )?;
    null_argument(alloc, scope, found, attributes)?;
    let count = value_argument(alloc, scope, found, &mut cuts, at, count)?;
    let count = Box::new(alloc, count)?;
    thread_statement(
        alloc,
        at,
        cuts,
        resolved::ThreadCall::BarrierInit(barrier, count),
    )
}

/// A call with one object.
#[tactic(auto, unfolding(crate::specs::Calls::object_call, crate::specs::Calls::object_statement))]
fn object_call(
    alloc: Global,
    scope: &Scope<'_>,
    found: &mut Findings,
    function: LibraryFunction,
    at: u32,
    arguments: &[Argument],
) -> Result<Box<resolved::Statement>, AllocError>
    ensures { Walks boxed_statement_of (spec.object_call scope.now function at arguments.now found.old) result found.new }
{
    let [object] = arguments else {
        return looked_call(alloc, scope, found, arguments);
    };
    let mut cuts = no_cuts(alloc, scope);
    let kind = object_kind(function);
    let place = address_argument(alloc, scope, found, &mut cuts, at, kind, object)?;
    thread_statement(alloc, at, cuts, on_object(function, place))
}

/// A printf whose name stands at the offset.
#[tactic(auto, unfolding(crate::specs::Calls::print_call, crate::specs::Calls::print_arguments))]
fn print_call(
    alloc: Global,
    scope: &Scope<'_>,
    found: &mut Findings,
    at: u32,
    offset: usize,
    arguments: &[Argument],
) -> Result<Box<resolved::Statement>, AllocError>
    ensures { Walks boxed_statement_of (spec.print_call scope.now at offset arguments.now found.old) result found.new }
{
    let [first, converted @ ..] = arguments else {
        found.add(Rule::Format, offset);
        return resolved::Statement::Empty.boxed(alloc);
    };
    let format = format(alloc, first)?;
    let is_taken = takes(&format, converted.len());
    found.add_if(!is_taken, Rule::Format, argument_offset(first));
    look_at_argument(alloc, scope, found, first)?;
    let mut cuts = no_cuts(alloc, scope);
    let values = argument_values(alloc, scope, found, &mut cuts, at, converted)?;
    match format {
        Some(pieces) => {
            let print = resolved::Statement::Print(at, pieces, values);
            behind_cuts(alloc, cuts.before, print)
        }
        None => resolved::Statement::Empty.boxed(alloc),
    }
}

/// A call of a function of the library as a statement.
#[tactic(auto, unfolding(crate::specs::Calls::library_call, crate::specs::Calls::library_statement))]
fn library_call(
    alloc: Global,
    scope: &Scope<'_>,
    found: &mut Findings,
    function: LibraryFunction,
    at: u32,
    offset: usize,
    arguments: &[Argument],
) -> Result<Box<resolved::Statement>, AllocError>
    ensures { Walks boxed_statement_of (spec.library_call scope.now function at offset arguments.now found.old) result found.new }
{
    library_name(scope, found, function, arguments.len(), offset);
    match function {
        LibraryFunction::Print => print_call(alloc, scope, found, at, offset, arguments),
        LibraryFunction::Create => create_call(alloc, scope, found, at, arguments),
        LibraryFunction::Join => join_call(alloc, scope, found, at, arguments),
        LibraryFunction::Exit => exit_call(alloc, scope, found, at, arguments),
        LibraryFunction::MutexInit => mutex_init_call(alloc, scope, found, at, arguments),
        LibraryFunction::BarrierInit => barrier_init_call(alloc, scope, found, at, arguments),
        LibraryFunction::MutexDestroy
        | LibraryFunction::MutexLock
        | LibraryFunction::MutexUnlock
        | LibraryFunction::BarrierDestroy
        | LibraryFunction::BarrierWait => {
            object_call(alloc, scope, found, function, at, arguments)
        }
    }
}

/// A call of a function of the text by the number of its header, whose value, if it has one, is not used.
#[tactic(auto, unfolding(crate::specs::Calls::function_statement))]
fn function_call(
    alloc: Global,
    scope: &Scope<'_>,
    found: &mut Findings,
    number: usize,
    at: u32,
    offset: usize,
    arguments: &[Argument],
) -> Result<Box<resolved::Statement>, AllocError>
    ensures { Walks boxed_statement_of (spec.function_statement scope.now number at offset arguments.now found.old) result found.new }
{
    let definition = function_name(scope, found, number, arguments.len(), false, offset)?;
    let mut cuts = no_cuts(alloc, scope);
    let values = argument_values(alloc, scope, found, &mut cuts, at, arguments)?;
    match definition {
        Some(function) => {
            let call = resolved::Statement::Call(at, None, function, values);
            behind_cuts(alloc, cuts.before, call)
        }
        None => resolved::Statement::Empty.boxed(alloc),
    }
}

/// A call as a statement at the place.
#[tactic(auto, unfolding(crate::specs::Calls::call, crate::specs::Calls::call_of, crate::specs::Calls::other_call))]
pub fn call(
    alloc: Global,
    scope: &Scope<'_>,
    found: &mut Findings,
    at: u32,
    call: &Call,
) -> Result<Box<resolved::Statement>, AllocError>
    ensures { Walks boxed_statement_of (spec.call scope.now at call.now found.old) result found.new }
{
    let known = scope.look_up(call.name.bytes.as_slice());
    let offset = call.name.offset;
    let arguments = call.arguments.as_slice();
    match known {
        Known::Library(function) => {
            library_call(alloc, scope, found, function, at, offset, arguments)
        }
        Known::Declared(Meaning::Function(number)) => {
            function_call(alloc, scope, found, number, at, offset, arguments)
        }
        _ => {
            no_function(found, known, offset);
            looked_call(alloc, scope, found, arguments)
        }
    }
}
