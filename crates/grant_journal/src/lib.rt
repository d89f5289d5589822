//! A net of threads that runs by entries of a journal: the state of a board is always that at the end of its journal.
#![tactic(auto)]

pub mod board;
pub mod local;
