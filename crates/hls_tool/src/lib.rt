//! The tool as one call: the words, the source, the sinks, and the answer.
#![tactic(auto)]

mod call;
mod deliver;
mod outcome;

pub use call::{hls, perform};
pub use deliver::tell_memory;
pub use hls_status::status::{Status, UnknownCause, WalkEnd};
pub use hls_words::Task;
pub use outcome::Outcome;
