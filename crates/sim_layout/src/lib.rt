//! A net laid out in flat words: the tree of its instances, the places of its signals, the order in which they settle, and what it prints.
//! `rt plant`: of 83 wrong bodies in 16 functions 74 are refused, 2 by the premise of a callee alone, 1 answers the same and 6 could not be judged; 2 functions only steer, and have no contract.
#![tactic(auto)]

mod components;
pub mod given;
pub mod loops;
pub mod operands;
pub mod order;
pub mod place;
pub mod print;
mod readers;
mod suspects;
pub mod waits;
pub mod wires;
