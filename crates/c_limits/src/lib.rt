//! The limits of the profile, what is counted of a program, the first count that is above its limit, and the bound of the
//! cycles between two of its steps.
//! `rt plant`: all 10 wrong bodies in 4 functions are refused.
#![tactic(auto)]

mod counts;
mod cycles;
mod limit;

pub use counts::{Measures, measure};
pub use cycles::bound;
pub use limit::{Limit, Passed};
