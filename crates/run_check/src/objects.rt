// The last act on each object of a kind.
ghost use Rattle.std.specs.Prelude.{◌≡◌, ◌≢◌, ℕ, true, IfOk};
ghost use Rattle.run_check.specs.Objects.{stamp_at};

use crate::clocks::Stamp;
use std::alloc::{AllocError, Global};

/// The last act on the object of that number.
pub fn last_act(steps: &[Stamp], n: u128) -> Stamp
    ensures { result ≡ stamp_at steps.now n }
{
    if n < steps.len() as u128 {
        steps[n as usize]
    } else {
        Stamp {
            thread: 0,
            number: 0,
        }
    }
}

/// Keeps the last act on the object of that number; whether there is one.
pub fn put_act(steps: &mut Vec<Stamp>, n: u128, step: Stamp) -> bool
    ensures set { result ≡ true → stamp_at steps.new.items n ≡ step }
    ensures others { (x : ℕ) → x ≢ n → stamp_at steps.new.items x ≡ stamp_at steps.old.items x }
{
    if n < steps.len() as u128 {
        steps[n as usize] = step;
        true
    } else {
        false
    }
}

/// So many objects on which no step has acted.
pub fn first_acts(alloc: Global, objects: usize) -> Result<Vec<Stamp>, AllocError>
    ensures { IfOk result (λ steps. (x : ℕ) → (stamp_at steps.items x).number ≡ 0) }
{
    let none = Stamp {
        thread: 0,
        number: 0,
    };
    Ok(vec![in alloc; none; objects]?)
}
