//! Least solutions of systems of difference constraints: the start times of schedules.
#![tactic(auto)]

pub mod constraint;
mod cycle;
mod history;
mod least;
mod relax;

pub use constraint::{Constraint, Solved};
pub use least::solve;
