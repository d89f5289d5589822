// The accesses of the parts of a statement.
ghost use Rattle.std.specs.Prelude.{◌≡◌, ◌++◌, IfOk};
ghost use Rattle.c_program.specs.Plain.{expression_of, expressions_of, place_of, thread_call_of};
ghost use Rattle.global_naming.specs.Naming.{expression_globals, expressions_globals, thread_call_globals};
ghost use Rattle.lock_discipline.specs.Walk as spec;
ghost use Rattle.lockset_check.specs.Views.{passed_of, walker_of};

use crate::progress::{Progress, Walker};
use c_program::tree::{Expression, Place, ThreadCall};
use global_naming::names::{push_expression, push_expressions, push_thread_call, push_variable};
use std::alloc::{AllocError, Global};

pub(crate) fn read(
    alloc: Global,
    walker: Walker,
    offset: u32,
    e: &Expression,
    progress: &mut Progress,
) -> Result<(), AllocError>
    ensures { IfOk result (λ _. passed_of progress.new ≡ spec.with_seen (passed_of progress.old) (spec.reads (walker_of walker) (passed_of progress.old).after offset (expression_globals (expression_of e.now)))) }
{
    let mut globals = Vec::new(alloc);
    push_expression(e, &mut globals)?;
    progress.touch(alloc, walker, offset, false, &globals)
}

pub(crate) fn read_all(
    alloc: Global,
    walker: Walker,
    offset: u32,
    list: &[Expression],
    progress: &mut Progress,
) -> Result<(), AllocError>
    ensures { IfOk result (λ _. passed_of progress.new ≡ spec.with_seen (passed_of progress.old) (spec.reads (walker_of walker) (passed_of progress.old).after offset (expressions_globals (expressions_of list.now)))) }
{
    let mut globals = Vec::new(alloc);
    push_expressions(list, &mut globals)?;
    progress.touch(alloc, walker, offset, false, &globals)
}

pub(crate) fn read_operands(
    alloc: Global,
    walker: Walker,
    offset: u32,
    call: &ThreadCall,
    progress: &mut Progress,
) -> Result<(), AllocError>
    ensures { IfOk result (λ _. passed_of progress.new ≡ spec.with_seen (passed_of progress.old) (spec.reads (walker_of walker) (passed_of progress.old).after offset (thread_call_globals (thread_call_of call.now)))) }
{
    let mut globals = Vec::new(alloc);
    push_thread_call(call, &mut globals)?;
    progress.touch(alloc, walker, offset, false, &globals)
}

fn push_index(place: &Place, globals: &mut Vec<u32>) -> Result<(), AllocError>
    ensures { IfOk result (λ _. globals.new.items ≡ globals.old.items ++ spec.index_globals (place_of place.now)) }
{
    match place {
        Place::Scalar(_, _, _) => Ok(()),
        Place::Element(_, _, _, _, index) => push_expression(index, globals),
    }
}

fn push_target(place: &Place, globals: &mut Vec<u32>) -> Result<(), AllocError>
    ensures { IfOk result (λ _. globals.new.items ≡ globals.old.items ++ spec.target_globals (place_of place.now)) }
{
    match place {
        Place::Scalar(storage, variable, _) | Place::Element(storage, variable, _, _, _) => {
            push_variable(*storage, *variable, globals)
        }
    }
}

/// The old value of a place.
pub(crate) fn read_old(
    alloc: Global,
    walker: Walker,
    offset: u32,
    place: &Place,
    progress: &mut Progress,
) -> Result<(), AllocError>
    ensures { IfOk result (λ _. passed_of progress.new ≡ spec.with_seen (passed_of progress.old) (spec.reads (walker_of walker) (passed_of progress.old).after offset (spec.target_globals (place_of place.now)))) }
{
    let mut globals = Vec::new(alloc);
    push_target(place, &mut globals)?;
    progress.touch(alloc, walker, offset, false, &globals)
}

/// The index of a place, and the write to it.
pub(crate) fn assign(
    alloc: Global,
    walker: Walker,
    offset: u32,
    place: &Place,
    progress: &mut Progress,
) -> Result<(), AllocError>
    ensures { IfOk result (λ _. passed_of progress.new ≡ spec.with_seen (passed_of progress.old) (spec.assigned (walker_of walker) (passed_of progress.old).after offset (place_of place.now))) }
{
    let mut index = Vec::new(alloc);
    push_index(place, &mut index)?;
    progress.touch(alloc, walker, offset, false, &index)?;
    let mut target = Vec::new(alloc);
    push_target(place, &mut target)?;
    progress.touch(alloc, walker, offset, true, &target)
}
