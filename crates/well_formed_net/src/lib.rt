//! What the rules of a well-formed text say of its netlist: its widths fit, a simulator can be opened on it, and the text of a net of threads is
//! read as that net, whose runs end in one way.
#![tactic(auto)]

pub mod law;
