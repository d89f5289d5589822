//! Workers that run the threads of a net, over one lock.
#![tactic(auto)]

pub mod gate;
pub mod run;
