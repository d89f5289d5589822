//! The core that keeps which threads run: creates, joins and finishes, one a cycle.
#![tactic(auto)]

pub mod law;
pub mod thread_ids;
