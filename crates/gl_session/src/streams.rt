//! Reading a source to its end, and writing a text to a sink.
ghost use Rattle.std.specs.Prelude.{◌≡◌, ◌<◌, ◌^◌, IfOk, OnOk, OnErr, IsErrOf};
ghost use Rattle.std.specs.Io.KnownBytes.{Appends};
ghost use Rattle.gl_base.specs.Count.{Rises};
ghost use Rattle.gl_session.specs.Streams.{ReadsThrough, LosesFront, AppendsFront};

use gl_io::{Sink, SinkFault, Source};
use std::alloc::Global;

/// How many bytes one call reads at most.
const CHUNK: usize = 4096;

/// Why a source was not read through.
#[derive(Clone, Copy, PartialEq, Eq)]
pub enum ReadError {
    /// A read failed.
    Fault,
    /// Out of memory.
    NoMemory,
}

/// The bytes of a source: all of them, or one more than the limit.
pub fn read_through<S: Source>(
    alloc: Global,
    source: &mut S,
    limit: usize,
) -> Result<Vec<u8>, ReadError>
    requires limit { limit < 2 ^ 32 }
    ensures ok { IfOk result (λ bytes. ReadsThrough limit (S.left source.old) (S.left source.new) bytes.items) }
    ensures fault { IsErrOf result ReadError.Fault → Rises (S.fault_count source.old) (S.fault_count source.new) }
    ensures fault_told { S.fault_count source.old < S.fault_count source.new → IsErrOf result ReadError.Fault }
    ensures front { LosesFront (S.left source.old) (S.left source.new) }
{
    let mut bytes = Vec::new(alloc);
    let mut chunk = [0; CHUNK];
    while bytes.len() <= limit {
        let most = CHUNK.min(limit + 1 - bytes.len());
        match source.take(&mut chunk[..most]) {
            Ok(0) => return Ok(bytes),
            Ok(count) => {
                let (taken, _) = chunk.split_at(count);
                if bytes.extend_from_slice(taken).is_err() {
                    return Err(ReadError::NoMemory);
                }
            }
            Err(_) => return Err(ReadError::Fault),
        }
    }
    Ok(bytes)
}

/// Writes a text. After a fault a front of it was written.
pub fn write_all<K: Sink>(sink: &mut K, text: &[u8]) -> Result<(), SinkFault>
    ensures ok { OnOk result (Appends (K.held sink.old) (K.held sink.new) text.now) }
    ensures fault { OnErr result (Rises (K.fault_count sink.old) (K.fault_count sink.new)) }
    ensures fault_told { OnOk result (K.fault_count sink.new ≡ K.fault_count sink.old) }
    ensures front { OnErr result (AppendsFront (K.held sink.old) (K.held sink.new) text.now) }
{
    let mut at = 0;
    while at < text.len() {
        let (_, rest) = text.split_at(at);
        match sink.put(rest) {
            Ok(count) => at += count,
            Err(fault) => return Err(fault),
        }
    }
    Ok(())
}
