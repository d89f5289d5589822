//! Of a good program each legal journal shows an interleaving.
#![tactic(auto)]

pub mod law;
