//! Expressions, places, conditions and called names of a text as those of its program, and the rules that they break.
//! `rt plant`: all 13 wrong bodies in 13 functions are refused; 20 more were not tried.
#![tactic(auto)]

pub mod callees;
mod choices;
pub mod cuts;
pub mod expressions;
mod objects;
pub mod operators;
pub mod sequences;
pub mod targets;
