//! The least interval of a pipelined loop, and its least schedule.
#![tactic(auto)]

mod search;
mod shared;
pub mod table;

pub use search::{Pipelined, pipeline};
pub use table::loop_constraints;
