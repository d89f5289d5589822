//! Settling by events: of the steps of a net that is laid out in words those are taken again that read or give a word which has changed, in their
//! order, and all others keep what they gave.
#![tactic(auto)]

pub mod cone;
pub mod edge;
pub mod fanout;
pub mod operation;
pub mod pending;
pub mod steady;
