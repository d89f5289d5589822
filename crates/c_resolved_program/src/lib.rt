//! The laws of programs that trees spell, and of accepted texts: they are resolved, so that no test of the resolved program is needed.
#![tactic(auto)]

pub mod law;
