//! The arbiter of a core: of the threads that ask it grants the first at or after a preferred one, cyclically.
#![tactic(auto)]

pub mod arbiter;
