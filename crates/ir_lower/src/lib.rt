//! Lowering: from a resolved C program to the codes of its thread functions, basic blocks of operations and acts between them.
#![tactic(auto)]

pub mod functions;
pub mod labels;
pub mod simple;
pub mod statements;
