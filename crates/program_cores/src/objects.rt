// The mutexes and barriers of a program.

ghost use Rattle.std.specs.Prelude.{◌≡◌, ◌≤◌, ◌++◌, IfOk, OnOk};
ghost use Rattle.c_program.specs.Limits.{barrier_elements};
ghost use Rattle.c_program.specs.Plain.{program_of};
ghost use Rattle.program_cores.specs.Cores.{mutex_shapes, object_mutexes};

use c_program::tree::{MutexObject, Program};
use mutex_cores::mutex::Shape;
use sqlite_items::Items;
use std::alloc::{AllocError, Global};

/// Appends the mutexes of an object.
fn push_mutexes(
    threads: usize,
    object: &MutexObject,
    mutexes: &mut Items<Shape>,
) -> Result<(), AllocError>
    ensures { OnOk result (mutexes.new ≡ mutexes.old ++ object_mutexes threads object.now) }
{
    let shape = Shape {
        threads,
        initialised: object.initialised,
    };
    for _ in 0..object.length {
        mutexes.push(shape)?;
    }
    Ok(())
}

/// A mutex for each element of the objects.
pub fn mutex_shapes(
    alloc: Global,
    threads: usize,
    objects: &[MutexObject],
) -> Result<Items<Shape>, AllocError>
    ensures { IfOk result (λ mutexes. mutexes ≡ mutex_shapes threads objects.now) }
{
    let mut mutexes: Items<Shape> = Items::new(alloc);
    for object in objects {
        push_mutexes(threads, object, &mut mutexes)?;
    }
    Ok(mutexes)
}

fn element_count(program: &Program) -> u128
    ensures { result ≡ barrier_elements (program_of program.now) }
{
    let mut count = 0u128;
    for object in &program.barriers {
        count += u128::from(object.length);
    }
    count
}

/// How many elements the barriers of a program have.
pub fn barrier_count(program: &Program) -> u64
    requires { barrier_elements (program_of program.now) ≤ 16 }
    ensures { result ≡ barrier_elements (program_of program.now) }
{
    element_count(program) as u64
}
