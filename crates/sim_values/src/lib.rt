//! The numbers of a net that is laid out in flat words: right sides, settling, and what a clock edge leaves.
//! `rt plant`: of 76 wrong bodies in 16 functions 72 are refused, 3 answer the same and 1 could not be judged.
#![tactic(auto)]

pub mod edge;
pub mod operators;
pub mod settle;
pub mod sizes;
pub mod tree;
pub mod value;
