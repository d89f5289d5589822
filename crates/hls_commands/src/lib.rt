//! What each command of the tool owes, before a byte is written.
#![tactic(auto)]

pub mod answer;
pub mod checks;
pub mod commands;
pub mod generated;
pub mod reports;
pub mod runs;
pub mod sims;

pub use run_command::Gate;
