//! A Verilog text, run as `step` runs the text that it compiles.
//! `rt plant`: all 2 wrong bodies in 2 functions are refused.
#![tactic(auto)]

pub mod sim;
