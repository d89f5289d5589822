// Which start routine the creates of a text name for each thread object.

ghost use Rattle.std.specs.Prelude.{◌≡◌, None, fold};
ghost use Rattle.c_resolution.specs.Routines as spec;

use c_program::tree::ThreadObject;
use c_rules::fault::{Fault, Rule, first};
use c_rules::findings::Creation;

/// The object at the number is created by the routine.
fn put_routine(threads: &mut [ThreadObject], number: usize, object: ThreadObject, routine: u32)
    ensures { threads.new ≡ spec.with_routine number object routine threads.old }
{
    if number < threads.len() {
        threads[number] = ThreadObject {
            length: object.length,
            routine: Some(routine),
        };
    }
}

/// Gives the object of a create its routine, unless it has one: a second create may not name another routine.
fn give_routine(threads: &mut [ThreadObject], creation: Creation) -> Option<Fault>
    ensures { (threads.new, result) ≡ spec.given creation threads.old }
{
    match threads.get(creation.thread as usize).copied() {
        Some(object) => match object.routine {
            Some(routine) if routine == creation.routine => None,
            Some(_) => Some(Fault {
                rule: Rule::Threads,
                offset: creation.offset,
            }),
            None => {
                put_routine(threads, creation.thread as usize, object, creation.routine);
                None
            }
        },
        None => None,
    }
}

/// Gives each object its routine; the first create that names another one is broken.
pub fn give_routines(threads: &mut [ThreadObject], creations: &[Creation]) -> Option<Fault>
    ensures { (threads.new, result) ≡ fold spec.next_given (threads.old, None) creations.now }
{
    let mut fault = None;
    for creation in creations {
        let broken = give_routine(threads, *creation);
        fault = first(fault, broken);
    }
    fault
}
