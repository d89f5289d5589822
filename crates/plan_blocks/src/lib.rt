//! Blocks of the code of a thread as plans see them, and that their runs are the same.
#![tactic(auto)]

pub mod laws;
