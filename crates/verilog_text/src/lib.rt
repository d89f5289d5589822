//! A Verilog text that is put together token by token, and the right sides of assigns in it.
#![tactic(auto)]

pub mod expressions;
pub mod text;
