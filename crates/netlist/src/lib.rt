//! Netlists: modules whose signals each carry what drives them. The meaning of a Verilog text is that of its netlist.
#![tactic(auto)]

pub mod netlist;
