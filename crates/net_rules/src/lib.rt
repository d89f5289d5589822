//! The rules of well-formed nets: tables of names, widths of expressions, statements and what they write, the strings of `$write`.
//! `rt plant`: of 143 wrong bodies in 41 functions 113 are refused, 4 answer the same and 26 could not be judged.
#![tactic(auto)]

pub mod expressions;
pub mod format;
pub mod interfaces;
pub mod kinds;
pub mod names;
pub mod statements;
pub mod writes;
