//! Pipelined loops of the code: which fit, what their operations use of earlier iterations, and that their least schedules keep them.
#![tactic(auto)]

pub mod carried;
pub mod laws;
mod schedule;

pub use carried::carried_of;
pub use schedule::schedule_loop;
