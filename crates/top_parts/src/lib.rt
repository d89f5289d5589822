//! The instances of `top`: a thread's module for each thread, the cores, and an arbiter for each core; and the wires that their ports drive.
#![tactic(auto)]

pub mod layout;
pub mod parts;
pub mod wires;
