//! The running simulator as commands: a run of a net, a journal done again, and what they say of themselves: their verdict, entries and cycles.
//! `rt plant`: of 22 wrong bodies in 7 functions 20 are refused and 2 by the premise of a callee alone.
#![tactic(auto)]

pub mod count;
pub mod lines;
pub mod replay;
pub mod run;

pub use hardware_threads::gate::Gate;
