//! The plans of a program: for each function that threads run its code, as it is lowered, with maximal blocks, and the plan of it.
#![tactic(auto)]

mod codes;
pub mod law;
mod planned;

ghost use Rattle.std.specs.Prelude.{◌≡◌, None, IfOk};
ghost use Rattle.c_limits.specs.Counts.{first_passed};
ghost use Rattle.c_program.specs.Counting.{capped};
ghost use Rattle.c_program.specs.Plain.{program_of};
ghost use Rattle.c_program.specs.Resolved.{IsResolved};
ghost use Rattle.c_program.specs.Weight.{thread_functions, weight as weight_of};
ghost use Rattle.program_plans.specs.Plans.{ArePlanned};

use crate::codes::codes;
use crate::planned::planned;
use block_ir::code::ThreadCode;
use block_ir::plan::Planned;
use c_program::tree::Program;
use fsm_plan::plan_all;
use sqlite_items::Items;
use std::alloc::{AllocError, Global};
use std::thread::Threads;

/// A function that threads run, with its code and the plan of the code.
#[derive(Drop)]
pub struct PlannedFunction {
    /// The name of the function in the C text.
    pub name: String,
    /// The code, with that of the functions that it calls.
    pub code: ThreadCode,
    pub plan: Planned,
}

/// The functions that threads run, in the order that is given, with their codes and the plans of these, for a program of this
/// weight. At most `jobs` threads make the plans, that of the caller among them; they are the same for each number. The only
/// error is want of memory.
pub fn plan_functions<R: Threads + Sync>(
    rt: &R,
    alloc: Global,
    program: &Program,
    functions: &[usize],
    weight: u32,
    jobs: u32,
) -> Result<Items<PlannedFunction>, AllocError>
    requires resolved { IsResolved (program_of program.now) }
    requires limits { first_passed (program_of program.now) ≡ None }
    requires threads { functions.now ≡ thread_functions (program_of program.now) }
    requires weight { weight ≡ capped (weight_of (program_of program.now)) }
    ensures { IfOk result (ArePlanned (program_of program.now)) }
{
    let codes = codes(alloc, program, functions, weight)?;
    let plans = plan_all(rt, alloc, codes.as_slice(), jobs)?;
    planned(alloc, program, functions, codes, plans)
}
