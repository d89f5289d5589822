//! The lines of a report on the code of a thread: its variables and stages, of each block the operations, states, units and registers of its plan.
#![tactic(auto)]

mod acts;
mod code;
mod operations;
mod words;

pub use code::put_code;
pub use words::{put_fact, put_number, put_pair, put_triple, put_type, put_word};
