//! Which texts of C are accepted, as which program, and why others are refused.
#![tactic(auto)]

mod refusal;

pub use refusal::Refusal;
