//! The first signal of a net that depends on itself, and its path as a text.
#![tactic(auto)]

pub mod dotted;
pub mod find;
