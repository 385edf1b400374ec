//! That sources and sinks move and fail as they are told to, and the traits' methods at the concrete types, through their bounds.

use gl_base::Errno;
use gl_io::{MemSink, MemSource, ReadSource, Sink, SinkFault, Source, SourceFault, WriteSink};
use std::alloc::Global;

/// The answers of four calls, and what the source told of its faults in the end.
fn four_takes<S: Source>(source: &mut S) -> ([Result<usize, SourceFault>; 4], u64) {
    let mut buf = [0; 3];
    let first = source.take(&mut buf);
    let second = source.take(&mut buf);
    let third = source.take(&mut buf);
    let fourth = source.take(&mut buf);
    ([first, second, third, fourth], source.faults())
}

/// The same of a sink and one piece.
fn four_puts<K: Sink>(sink: &mut K, piece: &[u8]) -> ([Result<usize, SinkFault>; 4], u64) {
    let first = sink.put(piece);
    let second = sink.put(piece);
    let third = sink.put(piece);
    let fourth = sink.put(piece);
    ([first, second, third, fourth], sink.faults())
}

/// A source of five bytes in pieces of three, whose second call fails.
fn failing_source(alloc: Global) -> Result<MemSource, Errno> {
    let bytes = b"gpio!".to_vec(alloc)?;
    let planned = [1].to_vec(alloc)?;
    Ok(MemSource::new(bytes, 3, planned))
}

/// A sink with room for five bytes in pieces of three, whose second call fails.
fn failing_sink(alloc: Global) -> Result<MemSink, Errno> {
    let planned = [1].to_vec(alloc)?;
    MemSink::new(alloc, 5, 3, planned)
}

/// Whether a source and a sink in memory answer as they have to, in this order.
pub fn in_memory(alloc: Global) -> Result<[bool; 3], Errno> {
    let mut source = failing_source(alloc)?;
    let mut sink = failing_sink(alloc)?;
    Ok([
        four_takes(&mut source) == ([Ok(3), Err(SourceFault), Ok(2), Ok(0)], 1),
        four_puts(&mut sink, b"gpio") == ([Ok(3), Err(SinkFault), Ok(2), Err(SinkFault)], 2),
        sink.as_slice() == b"gpigp".as_slice(),
    ])
}

/// Whether a reader is a source and a writer a sink, in this order.
pub fn adapted(alloc: Global) -> [bool; 2] {
    let mut source = ReadSource::new(b"gpio".as_slice());
    let mut sink = WriteSink::new(Vec::new(alloc));
    [
        four_takes(&mut source) == ([Ok(3), Ok(1), Ok(0), Ok(0)], 0),
        four_puts(&mut sink, b"gpio") == ([Ok(4), Ok(4), Ok(4), Ok(4)], 0),
    ]
}
