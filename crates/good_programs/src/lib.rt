//! Sample programs with and without threads, proved good, and one that races, proved not good.
#![tactic(auto)]

pub mod laws;
