//! The meaning of a Verilog text in two states: valuations, cycles and runs of its netlist (IEEE 1364-2005).
#![tactic(auto)]
