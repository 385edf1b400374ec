//! Where a session's bytes come from and where its output goes: the traits [`Source`] and [`Sink`],
//! their implementations in memory, and those over std's readers and writers, as standard input and output.
#![tactic(auto)]

mod adapters;
mod memory_sink;
mod memory_source;
mod standard;
mod traits;

pub use adapters::{ReadSource, WriteSink};
pub use memory_sink::MemSink;
pub use memory_source::MemSource;
pub use standard::{StdSink, StdSource};
pub use traits::{Sink, SinkFault, Source, SourceFault};
