//! What the next steps of a C program's threads touch, and the first race among them, as programs that are equal to the
//! definitions of `thread_semantics`.
//! `rt plant`: of 14 wrong bodies in 3 functions 12 are refused and 2 answer the same.
#![tactic(auto)]

pub mod access;
pub mod conflict;
pub mod footprint;
pub mod race;
pub mod reads;
