//! Tests of the simulator and of what it stands on: integers of C, bytes in and out, three nets as Verilog texts, and journals.
//! They stand in a crate of their own, since a crate with tests is proved twice.
#![tactic(auto)]

#[cfg(test)]
mod dumps;
#[cfg(test)]
mod expected;
#[cfg(test)]
mod integers;
#[cfg(test)]
mod journals;
#[cfg(test)]
mod nets;
#[cfg(test)]
mod streams;
#[cfg(test)]
mod tests;
