//! The module of a thread as a machine whose slot is its reading; the ports by which it asks cores (`CorePort`), and that it has
//! them (`IsRoutineModule`).
#![tactic(auto)]

pub mod law;
