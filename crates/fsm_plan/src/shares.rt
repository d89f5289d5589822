// How codes are shared out among jobs.

ghost use Rattle.std.specs.Prelude.{◌≡◌, ◌≤◌, IfOk, max, vec_len};
ghost use Rattle.fsm_plan.specs.Shares.{codes_of};

use block_ir::code::ThreadCode;
use std::alloc::{AllocError, Global};

/// At most so many parts of the codes, one behind the other, whose lengths differ by 1 at most; 0 counts as 1.
pub fn shares<'a>(
    alloc: Global,
    codes: &'a [ThreadCode],
    jobs: u32,
) -> Result<Vec<&'a [ThreadCode]>, AllocError>
    ensures whole { IfOk result (λ shares. codes_of shares.items ≡ codes.now) }
    ensures few { IfOk result (λ shares. vec_len shares ≤ max 1 jobs) }
{
    let count = codes.len().min(jobs.max(1) as usize);
    let mut shares = Vec::new(alloc);
    let mut rest = codes;
    for number in 0..count {
        let (share, later) = rest.split_at(rest.len() / (count - number));
        shares.push(share)?;
        rest = later;
    }
    Ok(shares)
}
