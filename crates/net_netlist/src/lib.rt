//! The netlist of a net, made from its tree: each name is looked up in its module, and each signal gets what drives it.
//! `rt plant`: all 13 wrong bodies in 7 functions are refused; 12 more were not tried.
#![tactic(auto)]

mod actions;
mod instances;
mod memories;
mod net;
mod signals;
mod values;

pub use net::netlist;
