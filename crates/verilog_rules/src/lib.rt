//! The grammar of a Verilog text by its tokens, how it is read from the left, and what a reader of texts answers.
#![tactic(auto)]

pub mod law;
pub mod sign;
