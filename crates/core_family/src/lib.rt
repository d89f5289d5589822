//! The kinds of cores of a net as one family: banks, mutexes, barriers, the core of the thread ids, the printer.
#![tactic(auto)]

pub mod cores;
pub mod law;
