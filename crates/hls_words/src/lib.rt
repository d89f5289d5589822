//! The words of the command line: what they ask for, read with clap.
//! `rt plant`: of 7 wrong bodies in 1 function 5 are refused, 1 answers the same and 1 answers want of memory.
#![tactic(auto)]

mod line;
mod task;

pub use line::parse;
pub use task::{Task, WordsError};
