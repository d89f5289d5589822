// The functions that exactly one hardware thread runs.
ghost use Rattle.std.specs.Prelude.{◌≡◌, ◌≤◌, ◌+◌, ◌++◌, nat_eq, length, filter, IfOk};
ghost use Rattle.std.specs.List.{range_with_len};
ghost use Rattle.c_program.specs.Plain.{program_of};
ghost use Rattle.c_program.specs.Weight.{names_routine};
ghost use Rattle.lock_discipline.specs.Discipline as spec;
ghost use Rattle.lockset_check.specs.Elements.{routines_of};

use c_program::tree::{Program, ThreadObject};
use std::alloc::{AllocError, Global};

fn names(f: usize, object: &ThreadObject) -> bool
    ensures { result ≡ names_routine f object.now }
{
    match object.routine {
        Some(routine) => routine as usize == f,
        None => false,
    }
}

/// Whether exactly so many elements of pthread_t objects run a function.
#[tactic(auto, using(crate::proofs::Elements::none_left, crate::proofs::Elements::named, crate::proofs::Elements::named_beyond, crate::proofs::Elements::other))]
fn is_run_by(objects: &[ThreadObject], f: usize, count: u64) -> bool
    ensures { result ≡ nat_eq (length (filter (spec.runs_on f) (routines_of objects.now))) count }
{
    match objects.split_first() {
        Some((object, rest)) => {
            if !names(f, object) {
                is_run_by(rest, f, count)
            } else if count < object.length {
                false
            } else {
                is_run_by(rest, f, count - object.length)
            }
        }
        None => count == 0,
    }
}

/// Whether exactly one hardware thread runs a function.
#[tactic(auto, using(crate::proofs::Elements::of_main, crate::proofs::Elements::of_elements))]
fn has_one_thread(program: &Program, f: usize) -> bool
    ensures { result ≡ spec.has_one_thread (program_of program.now) f }
{
    if program.main as usize == f {
        is_run_by(&program.threads, f, 0)
    } else {
        is_run_by(&program.threads, f, 1)
    }
}

/// Appends those of so many functions, from a number on.
#[tactic(auto, using(crate::proofs::Ranges::taken, crate::proofs::Ranges::passed))]
fn push_owners(
    program: &Program,
    f: usize,
    left: usize,
    owners: &mut Vec<usize>,
) -> Result<(), AllocError>
    requires { f + left ≤ 18446744073709551615 }
    ensures { IfOk result (λ _. owners.new.items ≡ owners.old.items ++ filter (spec.has_one_thread (program_of program.now)) (range_with_len f left)) }
{
    if left == 0 {
        return Ok(());
    }
    if has_one_thread(program, f) {
        owners.push(f)?;
    }
    push_owners(program, f + 1, left - 1, owners)
}

/// The functions that exactly one hardware thread runs, in the order of their definitions.
pub(crate) fn owners(alloc: Global, program: &Program) -> Result<Vec<usize>, AllocError>
    ensures { IfOk result (λ v. v.items ≡ spec.owners (program_of program.now)) }
{
    let mut owners = Vec::new(alloc);
    push_owners(program, 0, program.functions.len(), &mut owners)?;
    Ok(owners)
}
