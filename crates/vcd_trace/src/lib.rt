//! Runs of a net as value change dumps (IEEE 1364-2005, 18), which tell each register's number after each number of cycles.
#![tactic(auto)]

pub mod trace;
