//! The profile of C that the compiler takes: a text's program, its thread functions and its weight, or the first reason why it is refused.
#![tactic(auto)]

pub mod law;
mod text;

pub use c_accepted::Refusal;
pub use text::{Accepted, ProfileError, accept};
