//! What program the text of a program made from a number is: its statements, objects and types, as definitions alone.
#![tactic(auto)]
