//! Where bytes come from and where they go: sources and sinks, over memory and over the library's readers and writers.
#![tactic(auto)]

mod memory;
mod streams;

pub use memory::{MemorySink, MemorySource, fails_next};
pub use streams::{Got, Sink, Source, StdSink, StdSource, Wrote};
