// Why code in the making comes to no end.

ghost use Rattle.std.specs.Prelude.{◌≡◌, ◌+◌, ◌^◌, ◌<◌, IfOk, IfErr};
ghost use Rattle.code_blocks.specs.declared.fault.LoweringFault.TheVariants.{Memory};
ghost use Rattle.code_blocks.specs.Room.{IsFull};

use std::alloc::AllocError;
use thiserror::Error;

/// Why code in the making comes to no end.
#[derive(Clone, Copy, PartialEq, Eq, Debug, Drop, Error)]
pub enum LoweringFault {
    #[error("out of memory")]
    Memory,
    /// There are more operations, variables, steps or printf calls than a `u32` counts, or calls lead back to their caller.
    /// Within the limits of the profile a resolved program is none of these.
    #[error("too large")]
    TooLarge,
}

impl From<AllocError> for LoweringFault {
    ghost from_gives = { λ _ fault. fault ≡ Memory };

    fn from(_: AllocError) -> LoweringFault {
        LoweringFault::Memory
    }
}

/// The number of one more of what there are so many of.
pub fn number_of(count: usize) -> Result<u32, LoweringFault>
    ensures value { IfOk result (λ number. number ≡ count) }
    ensures room { IfOk result (λ number. number + 1 < 2 ^ 32) }
    ensures full { IfErr result (IsFull (count + 1)) }
{
    if count < u32::MAX as usize {
        Ok(count as u32)
    } else {
        Err(LoweringFault::TooLarge)
    }
}
