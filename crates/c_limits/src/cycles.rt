// The bound of the cycles between two steps of a program.
ghost use Rattle.std.specs.Prelude.{◌≡◌, min, IfOk};
ghost use Rattle.c_program.specs.Plain.{program_of};
ghost use Rattle.c_program.specs.Weight.{bound};
ghost use Rattle.c_limits.specs.Counts.{most_bound};

use c_program::threads::weight;
use c_program::tree::Program;
use std::alloc::{AllocError, Global};

/// How many cycles at most change a thread between two steps of the program: 64 times its weight and 1. As the weight
/// stops at 1,000,000, so the bound stops at 64,000,064.
pub fn bound(alloc: Global, program: &Program) -> Result<u32, AllocError>
    ensures { IfOk result (λ b. b ≡ min (bound (program_of program.now)) most_bound) }
{
    let weight = weight(alloc, program)?;
    Ok(64 * (weight + 1))
}
