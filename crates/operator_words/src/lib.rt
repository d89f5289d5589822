//! That the operators of Verilog on words show what the operators of blocks give on integers.
#![tactic(auto)]

pub mod laws;
