//! What it is for a program to be the one that a text's tree spells, and for a fault to be the first rule of the profile that the tree breaks.
#![tactic(auto)]
