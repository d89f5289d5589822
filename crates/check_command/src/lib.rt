//! A C text, and what is told of it: of its lock discipline, and of one run of its program.
#![tactic(auto)]

pub mod check;
pub mod run;
pub mod turn_list;
