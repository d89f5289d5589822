// Whether a program keeps the discipline.
ghost use Rattle.std.specs.Prelude.{◌≡◌, ◌≤◌, ◌+◌, ◌++◌, length, map, filter, slice_get, IfOk, false};
ghost use Rattle.std.specs.List.{flat_map, range_with_len};
ghost use Rattle.c_program.specs.Plain.{program_of, global_of};
ghost use Rattle.lock_discipline.specs.Discipline as spec;
ghost use Rattle.lockset_check.specs.Views.{seen_of};
ghost use Rattle.lockset_check.specs.Verdicts.{verdict_of};

use crate::forks::push_called;
use crate::owners::owners;
use crate::progress::{Progress, Seen, Walker};
use crate::sets::Sets;
use crate::verdicts::{any_too_deep, has_discipline, least, least_from, push_offsets};
use crate::walk::walk_call;
use c_program::threads::thread_functions;
use c_program::tree::{GlobalVariable, Program, ReturnType};
use sqlite_items::at;
use std::alloc::{AllocError, Global};

/// Whether a program keeps the lock discipline.
#[derive(Drop)]
pub enum Checked {
    /// Each global has a discipline; how many globals there are.
    Disciplined { globals: usize },
    /// The first global, in the order of the text, that has none, by its name, and the least offset of a step that accesses it where
    /// its accesses count. Or, with an empty name, the least offset of a create or a join that a start routine reaches.
    Doubt { offset: u32, name: String },
}

fn is_start(program: &Program, f: usize) -> bool
    ensures { result ≡ spec.is_start (slice_get (program_of program.now).functions f) }
{
    match at(&program.functions, f) {
        Some(code) => matches!(code.returns, ReturnType::Pointer),
        None => false,
    }
}

/// Appends the creates and joins that so many functions reach, from a number on, where they are start routines.
fn push_creators(
    program: &Program,
    depth: usize,
    f: usize,
    left: usize,
    forks: &mut Vec<u32>,
) -> Result<(), AllocError>
    requires { f + left ≤ 18446744073709551615 }
    ensures { let fs = (program_of program.now).functions in IfOk result (λ _. forks.new.items ≡ forks.old.items ++ flat_map (spec.forks_within fs depth) (filter (λ f. spec.is_start (slice_get fs f)) (range_with_len f left))) }
{
    if left == 0 {
        return Ok(());
    }
    if is_start(program, f) {
        push_called(program, depth, f, forks)?;
    }
    push_creators(program, depth, f + 1, left - 1, forks)
}

/// Appends what main, or a start routine, meets.
fn push_walked(
    alloc: Global,
    program: &Program,
    main: bool,
    function: usize,
    seen: Vec<Seen>,
) -> Result<Vec<Seen>, AllocError>
    ensures { IfOk result (λ v. map seen_of v.items ≡ map seen_of seen.items ++ spec.walked (program_of program.now) main function) }
{
    let unused = vec![in alloc; main; program.threads.len()]?;
    let held = vec![in alloc; false; program.mutexes.len()]?;
    let walker = Walker {
        main,
        function,
        threads: program.threads.len(),
    };
    let mut progress = Progress {
        at: Sets { unused, held },
        returns: None,
        seen,
    };
    walk_call(
        alloc,
        program,
        walker,
        program.functions.len(),
        function,
        &mut progress,
    )?;
    Ok(progress.seen)
}

/// Appends what start routines meet.
fn push_routines(
    alloc: Global,
    program: &Program,
    routines: &[usize],
    seen: Vec<Seen>,
) -> Result<Vec<Seen>, AllocError>
    ensures { IfOk result (λ v. map seen_of v.items ≡ map seen_of seen.items ++ flat_map (spec.walked (program_of program.now) false) routines.now) }
{
    match routines.split_first() {
        Some((f, rest)) => {
            let seen = push_walked(alloc, program, false, *f, seen)?;
            push_routines(alloc, program, rest, seen)
        }
        None => Ok(seen),
    }
}

/// The answer for globals, from a number on.
fn of_globals(
    alloc: Global,
    owners: &[usize],
    mutexes: usize,
    seen: &[Seen],
    count: usize,
    x: usize,
    globals: &[GlobalVariable],
) -> Result<Checked, AllocError>
    requires { x + length globals.now ≤ 18446744073709551615 }
    ensures { IfOk result (λ c. verdict_of c ≡ spec.of_globals owners.now mutexes (map seen_of seen.now) count x (map global_of globals.now)) }
{
    match globals.split_first() {
        Some((global, rest)) => {
            if has_discipline(owners, mutexes, seen, x) {
                return of_globals(alloc, owners, mutexes, seen, count, x + 1, rest);
            }
            let mut offsets = Vec::new(alloc);
            push_offsets(x, seen, &mut offsets)?;
            let name = global.name.clone()?;
            let offset = least(&offsets);
            Ok(Checked::Doubt { offset, name })
        }
        None => Ok(Checked::Disciplined { globals: count }),
    }
}

/// The answer for what main and the start routines meet.
fn of_seen(alloc: Global, program: &Program, seen: &[Seen]) -> Result<Checked, AllocError>
    ensures { IfOk result (λ c. verdict_of c ≡ spec.of_seen (program_of program.now) (map seen_of seen.now)) }
{
    if any_too_deep(seen) {
        let name = String::new(alloc);
        return Ok(Checked::Doubt { offset: 0, name });
    }
    let owners = owners(alloc, program)?;
    of_globals(
        alloc,
        &owners,
        program.mutexes.len(),
        seen,
        program.globals.len(),
        0,
        &program.globals,
    )
}

/// What main and the start routines meet.
fn all_seen(alloc: Global, program: &Program) -> Result<Vec<Seen>, AllocError>
    ensures { IfOk result (λ v. map seen_of v.items ≡ spec.all_seen (program_of program.now)) }
{
    let functions = thread_functions(alloc, program)?;
    match functions.as_slice().split_first() {
        Some((main, routines)) => {
            let seen = push_walked(alloc, program, true, *main, Vec::new(alloc))?;
            push_routines(alloc, program, routines, seen)
        }
        None => Ok(Vec::new(alloc)),
    }
}

/// The creates and joins that start routines reach.
fn creators(alloc: Global, program: &Program) -> Result<Vec<u32>, AllocError>
    ensures { IfOk result (λ v. v.items ≡ spec.creators (program_of program.now)) }
{
    let mut creators = Vec::new(alloc);
    let functions = program.functions.len();
    push_creators(program, functions, 0, functions, &mut creators)?;
    Ok(creators)
}

/// Whether a program keeps the discipline.
pub fn check(alloc: Global, program: &Program) -> Result<Checked, AllocError>
    ensures { IfOk result (λ c. verdict_of c ≡ spec.verdict (program_of program.now)) }
{
    let creators = creators(alloc, program)?;
    match creators.as_slice().split_first() {
        Some((first, rest)) => {
            let offset = least_from(*first, rest);
            let name = String::new(alloc);
            Ok(Checked::Doubt { offset, name })
        }
        None => {
            let seen = all_seen(alloc, program)?;
            of_seen(alloc, program, &seen)
        }
    }
}
