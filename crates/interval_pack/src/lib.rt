//! Left-edge packing: intervals, some of which may have no place, into as few rows as the most crowded place needs.
//! `rt plant`: of 19 wrong bodies in 6 functions 13 are refused, 1 answers the same and 5 could not be judged.
#![tactic(auto)]

mod chosen;
pub mod interval;
mod left_edge;
mod order;
mod packing;
mod rows;

pub use interval::{Interval, Packing};
pub use left_edge::pack;
pub use packing::pack_some;
