//! The tokens of a Verilog text, each with the offset at which it begins.
//! `rt plant`: all 3 wrong bodies in 1 function are refused.
#![tactic(auto)]

mod blanks;
mod front;
mod marks;
mod number;
mod runs;
pub mod tokens;
