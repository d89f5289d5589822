//! A cursor over the tokens of a C text: facts of the next token, and single tokens that are read.
//! `rt plant`: of 119 wrong bodies in 47 functions 100 are refused and 19 could not be judged; 111 more were not tried.
#![tactic(auto)]

pub mod cursor;
mod tokens;

pub use cursor::Cursor;
