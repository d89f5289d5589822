//! Tests of the layers of the front end and below: tokens, weights and bounds, races, what a run shows, texts made from a number,
//! the lowering, the banks of globals and the plans of a program. They stand in a crate of their own, since a crate with tests is proved twice.
#![tactic(auto)]

#[cfg(test)]
mod banks;
#[cfg(test)]
mod generated;
#[cfg(test)]
mod lexing;
#[cfg(test)]
mod lowering;
#[cfg(test)]
mod programs;
#[cfg(test)]
mod races;
#[cfg(test)]
mod runs;
#[cfg(test)]
mod weights;
