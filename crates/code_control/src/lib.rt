//! The code of conditions, and the parts of an if and of loops.
#![tactic(auto)]

pub mod branching;
pub mod conditions;
