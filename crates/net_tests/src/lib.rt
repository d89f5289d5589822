//! Tests of the layers of a net: netlists laid out, texts written and read, the check of a text's tree, cores, wires of operators, the whole net.
//! They stand in a crate of their own, since a crate with tests is proved twice.
#![tactic(auto)]

#[cfg(test)]
mod checks;
#[cfg(test)]
mod cores;
#[cfg(test)]
mod reading;
#[cfg(test)]
mod small;
#[cfg(test)]
mod texts;
#[cfg(test)]
mod wires;
#[cfg(test)]
mod wiring;
