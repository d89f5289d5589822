// Thread functions with their names, codes and plans.

ghost use Rattle.std.specs.Prelude.{◌≡◌, IfOk, length, string_bytes};
ghost use Rattle.c_program.specs.Plain.{program_of};
ghost use Rattle.program_plans.specs.Steps.{AreZipped, function_name};

use crate::PlannedFunction;
use block_ir::code::ThreadCode;
use block_ir::plan::Planned;
use c_program::tree::Program;
use sqlite_items::{Items, at};
use std::alloc::{AllocError, Global};

/// The name of a function in the C text.
fn name_of(alloc: Global, program: &Program, function: usize) -> Result<String, AllocError>
    ensures { IfOk result (λ name. string_bytes name ≡ function_name (program_of program.now) function) }
{
    match at(&program.functions, function) {
        Some(found) => found.name.clone(),
        None => Ok(String::new(alloc)),
    }
}

/// Each function with its code and its plan.
pub fn planned(
    alloc: Global,
    program: &Program,
    functions: &[usize],
    mut codes: Items<ThreadCode>,
    mut plans: Items<Planned>,
) -> Result<Items<PlannedFunction>, AllocError>
    requires codes { length codes ≡ length functions.now }
    requires plans { length plans ≡ length functions.now }
    ensures { IfOk result (AreZipped (program_of program.now) functions.now codes plans) }
{
    let mut planned = Items::new(alloc);
    for function in functions {
        let name = name_of(alloc, program, *function)?;
        let code = codes.remove(0);
        let plan = plans.remove(0);
        planned.push(PlannedFunction { name, code, plan })?;
    }
    Ok(planned)
}
