//! A Verilog net as a tree in its text's order, with the grammar of the text and the rules of a well-formed net.
//! `rt plant`: of 9 wrong bodies in 11 functions 8 are refused and 1 by the premise of a callee alone.
#![tactic(auto)]

pub mod kind;
pub mod name;
pub mod token;
pub mod tree;
