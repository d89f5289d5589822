//! The text of a journal: a line for each entry, before the text of the program that it is one of.
#![tactic(auto)]

pub mod entry;
pub mod number;
pub mod spelling;
pub mod text;
