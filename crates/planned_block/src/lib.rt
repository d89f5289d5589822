//! Planned blocks: blocks of operations that a thread's module runs state by state, with stalls, by any plan that keeps their orders; and
//! hardware of such blocks as an instance of the theory of interleavings: what a slot may change, a cycle as a chain, the headline's form.
#![tactic(auto)]

pub mod laws;
