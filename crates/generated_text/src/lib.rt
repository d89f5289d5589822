//! Programs made from a number: the C text of one whose threads work through lines that are drawn from a seed.
#![tactic(auto)]

mod draws;
mod text;

pub use draws::{Draws, Kind, Letter, Line};
pub use text::program_text;
