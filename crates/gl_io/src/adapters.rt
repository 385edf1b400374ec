//! std's readers as sources, and std's writers as sinks.
ghost use Rattle.std.specs.Prelude.{◌≡◌};

use super::traits::{Sink, SinkFault, Source, SourceFault};
use gl_base::count_up;
use std::io::{Read, Write};

/// A reader as a source. Its bytes are those of the reader, where the reader tells them.
#[derive(Drop)]
pub struct ReadSource<R> {
    reader: R,
    faults: u64,
}

impl<R: Read> ReadSource<R> {
    /// A source of what the reader gives, of which no read has failed so far.
    pub fn new(reader: R) -> ReadSource<R>
        ensures left { ⟦<ReadSource<R> as Source>⟧.left result ≡ R.remaining reader }
        ensures no_fault { ⟦<ReadSource<R> as Source>⟧.fault_count result ≡ 0 }
    {
        ReadSource { reader, faults: 0 }
    }
}

impl<R: Read> Source for ReadSource<R> {
    ghost left = { λ source. R.remaining source.reader };

    ghost fault_count = { λ source. source.faults };

    fn faults(&self) -> u64 {
        self.faults
    }

    fn take(&mut self, buf: &mut [u8]) -> Result<usize, SourceFault> {
        match self.reader.read(buf) {
            Ok(count) => Ok(count),
            Err(_) => {
                self.faults = count_up(self.faults);
                Err(SourceFault)
            }
        }
    }
}

/// A writer as a sink. Its bytes are those of the writer, where the writer tells them.
#[derive(Drop)]
pub struct WriteSink<W> {
    writer: W,
    faults: u64,
}

impl<W: Write> WriteSink<W> {
    /// A sink of what the writer takes, to which no write has failed so far.
    pub fn new(writer: W) -> WriteSink<W>
        ensures held { ⟦<WriteSink<W> as Sink>⟧.held result ≡ W.contents writer }
        ensures no_fault { ⟦<WriteSink<W> as Sink>⟧.fault_count result ≡ 0 }
    {
        WriteSink { writer, faults: 0 }
    }
}

impl<W: Write> Sink for WriteSink<W> {
    ghost held = { λ sink. W.contents sink.writer };

    ghost fault_count = { λ sink. sink.faults };

    fn faults(&self) -> u64 {
        self.faults
    }

    /// A write that takes nothing of a piece that isn't empty counts as a failure.
    fn put(&mut self, piece: &[u8]) -> Result<usize, SinkFault> {
        match self.writer.write(piece) {
            Ok(count) if count > 0 || piece.is_empty() => Ok(count),
            _ => {
                self.faults = count_up(self.faults);
                Err(SinkFault)
            }
        }
    }
}
