//! Calls of a text and their arguments as those of its program, and the rules that they break.
//! `rt plant`: of 23 wrong bodies in 14 functions 18 are refused and 5 could not be judged.
#![tactic(auto)]

pub mod arguments;
pub mod calls;
