//! The whole net: thread modules, cores, an arbiter for each core, and `top` and `top_rr` that wire them.
#![tactic(auto)]

mod inputs;
mod instances;
pub mod law;
mod places;
mod round;
mod signals;
pub mod wiring;

pub use top_parts::layout::{Core, Group, Layout};
pub use wiring::wire;
