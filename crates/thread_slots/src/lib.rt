//! The slot of a thread's module: its inputs and registers, the chains of what registers hold next, and the lists of wires that
//! the parts above share.
//! `rt plant`: of 78 wrong bodies in 23 functions 74 are refused, 1 by the premise of a callee alone, 1 answers the same and 2 could not be judged.
#![tactic(auto)]

// A function that adds signals promises what they show in every module that begins with them and every reading which that
// module obeys. There is one layer for each file:
//
// - shape: the thread's name and kind, and the cores that it asks;
// - bits: lists of bits;
// - inputs, slots: where inputs and registers stand, and that each register has room for what it keeps;
// - chains, requests: the first links of what registers hold next and of what cores are asked, and one more link;
// - hearing: what banks tell, where a core is needed (`HearsWords`);
// - stores: what an edge stores into the memories is what the operations of the state that is left write (`PutsFirst`).
//
// The same functions promise, in clauses `wired`, that signals stand in order (specs/Wired): inputs, registers, and wires each
// of which reads earlier signals of right widths; each signal has a name that tells its place.

pub mod bits;
pub mod chains;
pub mod hearing;
pub mod inputs;
pub mod meetings;
mod names;
pub mod requests;
pub mod shape;
pub mod slots;
pub mod stores;
pub mod told;
