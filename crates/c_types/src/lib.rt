//! Names, kinds and types: the resolved program of a C text's tree, or the first rule of the profile that it breaks.
//! `rt plant`: of 21 wrong bodies in 6 functions 20 are refused and 1 answers the same.
#![tactic(auto)]

mod calls;
mod resolving;
mod routines;
mod texts;

pub use c_rules::fault::{Fault, ResolveError, Rule, first};
pub use resolving::resolve;
