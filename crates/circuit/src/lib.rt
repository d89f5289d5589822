//! What the modules of an emitted net promise, and tables of rows that lay out their signals.
//! `rt plant`: of 15 wrong bodies in 6 functions 14 are refused and 1 by the premise of a callee alone.
#![tactic(auto)]

pub mod law;
pub mod rows;
pub mod table;
