//! The outside of the program: a shelf that files are fetched from and a sink that output is put into.
//!
//! Each counts its failures, so that a caller's contract can say that a failure is answered only where one came.
#![tactic(auto)]

mod files;
mod host;
mod memory;
mod plan;
mod shelf;
mod sink;
mod sure;

pub use host::{HostShelf, HostSink};
pub use memory::{MemShelf, MemSink};
pub use shelf::{FetchError, Shelf};
pub use sink::{Sink, SinkError};
pub use sure::{SureShelf, SureSink};
