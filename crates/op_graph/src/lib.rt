//! The constraints on the start times of the operations of a block.
#![tactic(auto)]

pub mod law;
pub mod node;
mod reduced;
mod rows;
mod table;

pub use reduced::reduced_constraints;
pub use table::constraints;
