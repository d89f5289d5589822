//! The two parts of a step of a C thread, as programs that are equal to the definitions of `thread_semantics`: the
//! thread's own part, and the act of printf or of a pthread call on the state.
//! `rt plant`: all 3 wrong bodies in 3 functions are refused; 5 more were not tried.
#![tactic(auto)]

pub mod act;
pub mod plan;
