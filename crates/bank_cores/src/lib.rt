//! The core that holds a bank of a global: a memory that threads read and write, one access a cycle.
//! `rt plant`: all 3 wrong bodies in 3 functions are refused.
#![tactic(auto)]

pub mod bank;
pub mod name;
