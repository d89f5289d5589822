//! The code of calls: of the program's functions, which stands in their callers' code, of returns, of pthread functions and of printf.
#![tactic(auto)]

pub mod acts;
pub mod calling;
pub mod returning;
