//! Which functions calls lead to.
//! `rt plant`: of 14 wrong bodies in 3 functions 8 are refused and 6 could not be judged.
#![tactic(auto)]

mod search;
mod table;

pub use search::{Reach, reach_of};
pub use table::Call;
