//! What the names in a module of a net stand for: places of signals and memories, modules, assigns, initial constants
//! and outputs of instances. Each is found without a search through the text.
//! `rt plant`: all 21 wrong bodies in 18 functions are refused; 19 more were not tried.
#![tactic(auto)]

pub mod assigns;
pub mod connections;
pub mod initials;
pub mod kinds;
pub mod names;
pub mod places;
pub mod tables;
pub mod ties;
