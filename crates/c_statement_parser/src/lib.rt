//! The reader of statements and of the declarations in blocks, from the top down.
//! `rt plant`: all 74 wrong bodies in 11 functions are refused.
#![tactic(auto)]

pub mod plain;
pub mod statements;
