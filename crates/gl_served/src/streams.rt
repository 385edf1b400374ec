//! Writing a text to a sink.

ghost use Rattle.std.specs.Prelude.{◌≡◌, ℕ, take, OnOk, OnErr};
ghost use Rattle.std.specs.Io.KnownBytes.{Appends};
ghost use Rattle.gl_base.specs.Count.{Rises};

use gl_io::{Sink, SinkFault};

/// Writes a text. After a fault a front of it was written.
pub fn write_all<K: Sink>(sink: &mut K, text: &[u8]) -> Result<(), SinkFault>
    ensures ok { OnOk result (Appends (K.held sink.old) (K.held sink.new) text.now) }
    ensures front { OnErr result ((count : ℕ) × Appends (K.held sink.old) (K.held sink.new) (take count text.now)) }
    ensures fault { OnErr result (Rises (K.fault_count sink.old) (K.fault_count sink.new)) }
    ensures fault_told { OnOk result (K.fault_count sink.new ≡ K.fault_count sink.old) }
{
    let mut at = 0;
    while at < text.len() {
        let (_, rest) = text.split_at(at);
        match sink.put(rest) {
            Ok(count) => at += count,
            Err(fault) => return Err(fault),
        }
    }
    Ok(())
}
