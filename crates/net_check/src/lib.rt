//! Whether a net is well formed, and else the first part of it that breaks a rule.
//! `rt plant`: of 57 wrong bodies in 20 functions 49 are refused and 8 could not be judged.
#![tactic(auto)]

pub mod check;
mod connections;
mod facts;
pub mod fault;
pub mod law;
mod printing;
mod search;
