//! Runs a program once, with vector clocks, and says whether that run shows the program good, and its output the only one.
#![tactic(auto)]

mod class;
mod clocks;
mod elements;
mod known;
mod objects;
pub mod race;
pub mod run;
