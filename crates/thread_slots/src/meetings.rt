// The numbers of meetings.

ghost use Rattle.std.specs.Prelude.{◌≡◌, length, IfOk};
ghost use Rattle.block_datapath.specs.Moves.{meeting};

use block_ir::code::ThreadCode;
use std::alloc::AllocError;

/// The number at which a thread meets others, once its barrier wait at a stage is granted: behind all stages and the rest.
pub fn meeting_stage(code: &ThreadCode, stage: usize) -> Result<u64, AllocError>
    ensures { IfOk result (λ number. number ≡ meeting (length code.now.stages) stage) }
{
    let rest = code.stages.len() as u64;
    let first = rest.checked_add(1).ok_or(AllocError)?;
    first.checked_add(stage as u64).ok_or(AllocError)
}
