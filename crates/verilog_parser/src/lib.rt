//! Reads a net from the tokens of a Verilog text.
//! `rt plant`: all 9 wrong bodies in 1 function are refused.
#![tactic(auto)]

mod items;
pub mod modules;
mod statements;
