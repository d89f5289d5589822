//! The banks of a program's globals: how many each has, which words are in each, and where each element is.
//! `rt plant`: all 22 wrong bodies in 4 functions are refused.
#![tactic(auto)]

pub mod banks;
pub mod count;
