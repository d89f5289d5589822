//! Registers shared by the values of a block.
#![tactic(auto)]

mod bind;
pub mod law;
mod lives;
mod used;

pub use bind::{Registers, bind_registers};
