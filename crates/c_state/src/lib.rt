//! The state of a C program with POSIX threads, as a program that is equal to the definitions of `thread_semantics`: the
//! state at the start, where values are stored, what a step changes in memory, and who runs and who waits.
//! `rt plant`: of 25 wrong bodies in 15 functions 23 are refused and 2 could not be judged; 48 more were not tried.
#![tactic(auto)]

pub mod memory;
pub mod place;
pub mod state;
pub mod threads;
