//! The core that writes what printf prints: under a grant it writes the text of a print site with the thread's values.
//! `rt plant`: all 6 wrong bodies in 3 functions are refused.
#![tactic(auto)]

pub mod format;
pub mod printer;
