//! A cursor over the tokens of a Verilog text, and how ranges, constants and the right sides of assigns are read from it.
//! `rt plant`: all 26 wrong bodies in 4 functions are refused.
#![tactic(auto)]

pub mod cursor;
pub mod expressions;
