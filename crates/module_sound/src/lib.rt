//! The law of a module that is put together signal by signal: a text can tell it, and its text is well formed.
#![tactic(auto)]

// Inputs stand first and outputs last; the name of each signal tells its place, so no two are the same; and each register
// is set by the statement of its own number, counted from the first register.

pub mod law;
