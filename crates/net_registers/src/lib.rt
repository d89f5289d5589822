//! The registers of a net in the order in which a value change dump numbers them, with the head of the dump that names them.
//! `rt plant`: all 28 wrong bodies in 10 functions are refused.
#![tactic(auto)]

pub mod listing;
pub mod registers;
mod walk;
