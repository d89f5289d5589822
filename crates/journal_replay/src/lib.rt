//! A journal done again.
#![tactic(auto)]

pub mod replay;
pub mod steps;
