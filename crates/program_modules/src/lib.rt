//! The modules of a program's hardware threads, by number: one for each function that threads run, main's first, and behind them
//! one for threads without a function.
//! `rt plant`: of 6 wrong bodies in 3 functions 5 are refused and 1 by the premise of a callee alone.
#![tactic(auto)]

ghost use Rattle.std.specs.Prelude.{◌≡◌, ◌++◌, ◌∷◌, IfOk, OnOk};
ghost use Rattle.std.specs.List.{flat_map, list_any};
ghost use Rattle.c_program.specs.Plain.{program_of};
ghost use Rattle.c_program.specs.Weight.{thread_functions};
ghost use Rattle.program_modules.specs.Numbers.{NoMoreModules, has_idle, is_idle_object, module_numbers, number_in, object_numbers, place_in};

use c_program::tree::{Program, ThreadObject};
use sqlite_items::Items;
use std::alloc::{AllocError, Global};

/// The place of a function among those that threads run, or their number where it is none of them.
fn place(functions: &[usize], function: usize) -> usize
    ensures { result ≡ place_in functions.now function }
{
    for (place, other) in functions.iter().enumerate() {
        if *other == function {
            return place;
        }
    }
    functions.len()
}

fn number(functions: &[usize], object: &ThreadObject) -> usize
    ensures { result ≡ number_in functions.now object.now.routine }
{
    match object.routine {
        Some(routine) => place(functions, routine as usize),
        None => functions.len(),
    }
}

/// Appends the numbers of the modules of an object's threads.
fn push_numbers(
    functions: &[usize],
    object: &ThreadObject,
    numbers: &mut Items<usize>,
) -> Result<(), AllocError>
    ensures { OnOk result (numbers.new ≡ numbers.old ++ object_numbers functions.now object.now) }
{
    let number = number(functions, object);
    for _ in 0..object.length {
        numbers.push(number)?;
    }
    Ok(())
}

/// The numbers of main's module and of those of the threads of objects.
fn all_numbers(
    alloc: Global,
    functions: &[usize],
    objects: &[ThreadObject],
) -> Result<Items<usize>, AllocError>
    ensures { IfOk result (λ numbers. numbers ≡ 0 ∷ flat_map (object_numbers functions.now) objects.now) }
{
    let mut numbers: Items<usize> = Items::new(alloc);
    numbers.push(0)?;
    for object in objects {
        push_numbers(functions, object, &mut numbers)?;
    }
    Ok(numbers)
}

/// For each hardware thread the number of its module, where threads run these functions.
pub fn module_numbers(
    alloc: Global,
    program: &Program,
    functions: &[usize],
) -> Result<Items<usize>, AllocError>
    requires { functions.now ≡ thread_functions (program_of program.now) }
    ensures { IfOk result (λ numbers. numbers ≡ module_numbers (program_of program.now)) }
{
    let numbers = all_numbers(alloc, functions, program.threads.as_slice())?;
    Ok(numbers)
}

/// Whether an object has a thread, and its threads have no function.
fn is_idle_object(object: &ThreadObject) -> bool
    ensures { result ≡ is_idle_object object.now }
{
    match object.routine {
        Some(_) => false,
        None => object.length > 0,
    }
}

fn any_idle(objects: &[ThreadObject]) -> bool
    ensures { result ≡ list_any is_idle_object objects.now }
{
    objects.iter().any(|object| is_idle_object(object))
}

/// Whether a hardware thread has no function.
pub fn has_idle(program: &Program) -> bool
    ensures { result ≡ has_idle (program_of program.now) }
{
    any_idle(program.threads.as_slice())
}

/// There are no more modules of threads than hardware threads.
#[tactic(auto, using(crate::proofs::Few::no_more_modules))]
pub fn no_more_modules()
    ensures { NoMoreModules }
{}
