//! Where bytes come from and go to: sources and sinks that count their faults, lists of bytes, decimal numbers.
#![tactic(auto)]

mod bytes;
mod memory;
mod standard;
mod sure;
mod traits;
mod whole;

pub use bytes::{Bytes, put_dec};
pub use memory::{MemSink, MemSource};
pub use standard::{StdSink, StdSource};
pub use sure::{SureSink, SureSource};
pub use traits::{Failed, Sink, Source};
pub use whole::{ReadAllError, WriteFault, read_all, write_all};
