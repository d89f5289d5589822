//! Whether a program keeps a lock discipline, or where it is in doubt.
#![tactic(auto)]

mod accesses;
pub mod check;
mod forks;
mod inside;
mod loops;
mod owners;
mod progress;
mod sets;
mod verdicts;
mod walk;
