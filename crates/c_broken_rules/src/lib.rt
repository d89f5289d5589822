//! The rules of the profile as a relation between a text's tree, a rule and a place, and the laws that join it to the
//! first fault that name resolution answers: of unknown names, double declarations and labels, recursion, threads, constants
//! and formats.
#![tactic(auto)]

pub mod law;
