//! A Verilog text as a net that a simulator runs, or the offset at which it is none.
#![tactic(auto)]

mod counts;
mod parts;
pub mod read;
pub mod top;
