//! Standard input as a source and standard output as a sink. They tell no content: what the system
//! gives and takes is outside every contract. What is trusted is that they are made of the process's
//! streams, as `StdSource::new(rt.stdin())` and `StdSink::new(rt.stdout())`.

use super::adapters::{ReadSource, WriteSink};
use std::io::{Stdin, Stdout};

/// Standard input.
pub type StdSource = ReadSource<Stdin>;

/// Standard output.
pub type StdSink = WriteSink<Stdout>;
