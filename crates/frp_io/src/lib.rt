//! Where bytes come from and where they go: sources and sinks that count how often they fail.
#![tactic(auto)]

mod failed;
mod mem_sink;
mod mem_source;
mod plain_source;
mod sink;
mod source;
mod std_streams;
#[cfg(test)]
mod tests;

pub use failed::Failed;
pub use mem_sink::MemSink;
pub use mem_source::MemSource;
pub use plain_source::PlainSource;
pub use sink::Sink;
pub use source::Source;
pub use std_streams::{StdSink, StdSource};
