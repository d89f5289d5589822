//! What the machine of a thread asks of the plan of its code, whatever made the plan.
#![tactic(auto)]

pub mod law;
