//! What a text declares and defines at file scope as what its program has (C99 6.9): objects with their initial values, and functions with their prototypes.
//! `rt plant`: all 6 wrong bodies in 3 functions are refused.
#![tactic(auto)]

pub mod functions;
pub mod globals;
mod initials;
mod slots;
pub mod tables;
