//! Tests of the tool as one call, with a task, source, sinks and gate in memory, and of the net that is built under other choices than those of
//! `top_rr`. They stand in a crate of their own, since a crate with tests is proved twice.
//! Rows that need no stream that fails are those of `tests/outside/rows`, which calls the program itself.
#![tactic(auto)]

#[cfg(test)]
mod call;
#[cfg(test)]
mod choices;
#[cfg(test)]
mod commands;
#[cfg(test)]
mod faults;
#[cfg(test)]
mod meeting;
#[cfg(test)]
mod programs;
#[cfg(test)]
mod sims;
