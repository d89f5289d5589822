//! Functional units shared by the operations of a block.
//! `rt plant`: of 17 wrong bodies in 5 functions 16 are refused and 1 answers the same.
#![tactic(auto)]

mod bind;
mod kinds;
pub mod law;
mod works;

pub use bind::{UnitCount, Units, bind_units};
