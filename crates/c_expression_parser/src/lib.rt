//! The reader of expressions, from the top down.
//! `rt plant`: all 21 wrong bodies in 7 functions are refused; 35 more were not tried.
#![tactic(auto)]

pub mod expressions;
