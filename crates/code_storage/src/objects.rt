// The numbers of pthread objects: the elements of those of each kind, in order of declaration.

ghost use Rattle.std.specs.Prelude.{◌≡◌, ◌+◌, ◌^◌, ◌<◌, ◌++◌, ◌∷◌, [], IfOk, IfErr, OnOk};
ghost use Rattle.std.specs.List.{sum_by};
ghost use Rattle.c_program.specs.Limits.{mutex_elements, barrier_elements};
ghost use Rattle.c_program.specs.Plain.{program_of};
ghost use Rattle.c_program.specs.Weight.{thread_count};
ghost use Rattle.code_blocks.specs.Room.{IsFull};
ghost use Rattle.code_storage.specs.Objects as objects;

use c_program::tree::{BarrierObject, MutexObject, Program, ThreadObject};
use code_blocks::fault::LoweringFault;
use sqlite_items::{Items, at};
use std::alloc::{AllocError, Global};

/// For each object of each kind the number of its first element. Thread 0 is main.
#[derive(Drop)]
pub struct Objects {
    pub threads: Items<u32>,
    pub mutexes: Items<u32>,
    pub barriers: Items<u32>,
}

/// The first element of an object of that length has this number. The answer is the number after its last.
fn push_object(numbers: &mut Items<u32>, number: u32, length: u64) -> Result<u32, LoweringFault>
    ensures numbers { OnOk result (numbers.new ≡ numbers.old ++ number ∷ []) }
    ensures sum { IfOk result (λ next. next ≡ number + length) }
    ensures few { IfOk result (λ next. next < 2 ^ 32) }
    ensures full { IfErr result (IsFull (number + length)) }
{
    if length > u64::from(u32::MAX - number) {
        return Err(LoweringFault::TooLarge);
    }
    numbers.push(number)?;
    Ok(number + length as u32)
}

fn threads_of(alloc: Global, threads: &[ThreadObject]) -> Result<Items<u32>, LoweringFault>
    ensures numbers { IfOk result (objects.AreNumbers 1 (λ object. object.length) threads.now) }
    ensures full { IfErr result (IsFull (1 + sum_by (λ object. object.length) threads.now)) }
{
    let mut numbers = Items::new(alloc);
    let mut next = 1;
    for object in threads {
        next = push_object(&mut numbers, next, object.length)?;
    }
    Ok(numbers)
}

fn mutexes_of(alloc: Global, mutexes: &[MutexObject]) -> Result<Items<u32>, LoweringFault>
    ensures numbers { IfOk result (objects.AreNumbers 0 (λ object. object.length) mutexes.now) }
    ensures full { IfErr result (IsFull (sum_by (λ object. object.length) mutexes.now)) }
{
    let mut numbers = Items::new(alloc);
    let mut next = 0;
    for object in mutexes {
        next = push_object(&mut numbers, next, object.length)?;
    }
    Ok(numbers)
}

fn barriers_of(alloc: Global, barriers: &[BarrierObject]) -> Result<Items<u32>, LoweringFault>
    ensures numbers { IfOk result (objects.AreNumbers 0 (λ object. object.length) barriers.now) }
    ensures full { IfErr result (IsFull (sum_by (λ object. object.length) barriers.now)) }
{
    let mut numbers = Items::new(alloc);
    let mut next = 0;
    for object in barriers {
        next = push_object(&mut numbers, next, object.length)?;
    }
    Ok(numbers)
}

/// The numbers of a program's objects.
#[tactic(auto, using(crate::proofs::ObjectCount::are_objects))]
pub fn objects_of(alloc: Global, program: &Program) -> Result<Objects, LoweringFault>
    ensures objects { IfOk result (objects.AreObjects (program_of program.now)) }
    ensures full { IfErr result (IsFull
        (thread_count (program_of program.now) + mutex_elements (program_of program.now) + barrier_elements (program_of program.now))) }
{
    let threads = threads_of(alloc, &program.threads)?;
    let mutexes = mutexes_of(alloc, &program.mutexes)?;
    let barriers = barriers_of(alloc, &program.barriers)?;
    Ok(Objects {
        threads,
        mutexes,
        barriers,
    })
}

/// The number of the first element of an object, where those of its kind have these; 0 where there is no such object.
pub fn first_of(numbers: &[u32], object: u32) -> u32
    ensures { result ≡ objects.first_in numbers.now object }
{
    match at(numbers, object as usize) {
        None => 0,
        Some(number) => *number,
    }
}
