//! Plans by least starts, shared units and packed registers, also of many codes side by side, the same for each number of jobs; and why every order of a
//! block's operations that meets its table does what the block does.
#![tactic(auto)]

pub mod agreeing;
mod blocks;
mod code;
pub mod law;
mod plans;
mod shares;
mod starts;

pub use blocks::{Bound, plan_block};
pub use code::{PlannedStage, plan};
pub use plans::plan_all;
pub use starts::least_starts;
