//! How a call of the tool ends, and the line on err that says so.
//! `rt plant`: all 8 wrong bodies in 7 functions are refused; 10 more were not tried.
#![tactic(auto)]

pub mod lines;
pub mod status;
