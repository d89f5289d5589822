//! What it is for a Verilog text to be good Verilog of a C program: the statement that the compiler is proved to meet.
#![tactic(auto)]
