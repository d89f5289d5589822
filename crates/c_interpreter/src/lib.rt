//! The steps of a C program with POSIX threads, as a program that is equal to the definitions of `thread_semantics`: the
//! next step of a thread, and a walk along a list of thread numbers.
//! `rt plant`: all 7 wrong bodies in 4 functions are refused.
#![tactic(auto)]

pub mod law;
pub mod step;
pub mod walk;
