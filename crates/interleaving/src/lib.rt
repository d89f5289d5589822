//! The theory of threads that interleave, and of hardware that lags behind an interleaving. It knows no language and no hardware.
#![tactic(auto)]

pub mod laws;
