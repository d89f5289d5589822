//! Code of a thread: stages, each a basic block of operations or an act at a core, and plans of them.
#![tactic(auto)]

pub mod block;
pub mod code;
pub mod operand;
pub mod plan;
pub mod service;
