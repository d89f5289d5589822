// The code of a thread function.

ghost use Rattle.std.specs.Prelude.{◌≡◌, ◌≢◌, Contains, IfOk, IfErr};
ghost use Rattle.c_program.specs.Plain.{program_of};
ghost use Rattle.c_program.specs.Limits.{IsWithinLimits};
ghost use Rattle.c_program.specs.Resolved.{IsResolved};
ghost use Rattle.c_program.specs.Weight.{thread_functions};
ghost use Rattle.code_following.specs.Typed.{IsThreadCode};
ghost use Rattle.ir_lower.specs.Codes as spec;

use crate::statements::lower_body;
use block_ir::code::ThreadCode;
use c_program::tree::Program;
use code_blocks::fault::LoweringFault;
use code_blocks::homes::Home;
use code_places::lowering::Lowering;
use code_storage::objects::objects_of;
use code_storage::prints::all_values;
use code_storage::rooms::{Housing, Rooms, rooms_of};
use sqlite_items::at;
use std::alloc::Global;

/// The variable that has the argument of a thread function: that of its one parameter. Main has none.
fn argument_of(program: &Program, function: usize, rooms: &Rooms) -> Option<u32>
    ensures { result ≡ spec.argument_of (program_of program.now) function rooms.now }
{
    if function == program.main as usize {
        return None;
    }
    let room = rooms.rooms.get(function)?;
    match room.homes.get(0) {
        Some(Home::Variable(number)) => Some(*number),
        Some(Home::Array(_)) | None => None,
    }
}

/// The code of one thread function, which is main or a start routine that a create names, with that of each function that it
/// calls. Errors: out of memory, and too large, which it is not within the limits.
pub fn lower_function(
    alloc: Global,
    program: &Program,
    function: usize,
) -> Result<ThreadCode, LoweringFault>
    requires resolved { IsResolved (program_of program.now) }
    requires runs { Contains (thread_functions (program_of program.now)) function }
    ensures code { IfOk result (IsThreadCode (program_of program.now) function) }
    ensures ample { IfErr result (λ e. IsWithinLimits (program_of program.now) → e ≢ LoweringFault.TooLarge) }
{
    let Some(found) = at(&program.functions, function) else {
        unreachable!();
    };
    let objects = objects_of(alloc, program)?;
    let housing = rooms_of(alloc, program, function)?;
    let Housing { rooms, names } = housing;
    let argument = argument_of(program, function, &rooms);
    let words = all_values(program.functions.as_slice());
    let mut code = Lowering::new(alloc, rooms, objects, function, words)?;
    let start = code.start(alloc)?;
    lower_body(alloc, program, &mut code, &found.body)?;
    let code = code.finish(alloc, start, argument, names)?;
    Ok(code)
}
