//! Entries of a journal and verdicts, and what holds of the states that entries lead to.
#![tactic(auto)]

pub mod copy_run;
pub mod enter;
pub mod judge;
pub mod verdict;
