//! Statements and blocks of a text as those of its program: declarations in blocks, with the lengths of arrays, what names are declared as and the steps of
//! declarators; statements without statements in them; and those that have them.
//! `rt plant`: all 32 wrong bodies in 19 functions are refused.
#![tactic(auto)]

pub mod declarations;
pub mod declarators;
pub mod lengths;
pub mod locals;
pub mod simple;
pub mod statements;
mod switches;
