//! What a session is handed to read from and to write to.
ghost use Rattle.std.specs.Prelude.{◌≡◌, ℕ, ◌<◌, ◌≤◌, Option, List, None, IfOk, OnOk, OnErr, length, take};
ghost use Rattle.std.specs.Io.KnownBytes.{Keeps, Appends, Consumes, IsAtEnd};
ghost use Rattle.gl_base.specs.Count.{Rises};

use thiserror::Error;

/// A read that failed. Nothing was taken, and the source counted the failure.
#[derive(Clone, Copy, Debug, PartialEq, Eq, Error)]
#[error("the source could not be read")]
pub struct SourceFault;

/// A write that failed. Nothing was appended, and the sink counted the failure.
#[derive(Clone, Copy, Debug, PartialEq, Eq, Error)]
#[error("the sink could not be written")]
pub struct SinkFault;

/// Bytes that are read once, from the first to the last.
pub trait Source {
    /// The bytes left, where the source tells them.
    ghost left: { Self → Option (List ℕ) } = { λ _. None };

    /// The failures so far.
    ghost fault_count: { Self → ℕ };

    /// The failures so far. The count never falls, and stands still at `u64::MAX`.
    fn faults(&self) -> u64
        ensures { result ≡ fault_count self.now };

    /// Moves the first bytes left into the front of `buf`, and answers how many. No byte moved into a
    /// buffer that isn't empty is the end of input. Nothing is said of the rest of `buf`, nor of `buf`
    /// after a fault.
    fn take(&mut self, buf: &mut [u8]) -> Result<usize, SourceFault>
        ensures bound { IfOk result (λ count. count ≤ length buf.old) }
        ensures taken { IfOk result (λ count. Consumes (left self.old) (left self.new) (take count buf.new)) }
        ensures end { IfOk result (λ count. count ≡ 0 → 0 < length buf.old → IsAtEnd (left self.new)) }
        ensures never_falls { fault_count self.old ≤ fault_count self.new }

        // A call that moved bytes, or found the end, counts nothing.
        ensures no_fault { OnOk result (fault_count self.new ≡ fault_count self.old) }

        // A fault comes only where the count rose in this call, and then nothing was taken.
        ensures fault { OnErr result (Rises (fault_count self.old) (fault_count self.new)) }
        ensures kept { OnErr result (Keeps (left self.old) (left self.new)) };
}

/// What takes bytes at its end.
pub trait Sink {
    /// The bytes held, where the sink tells them.
    ghost held: { Self → Option (List ℕ) } = { λ _. None };

    /// The failures so far.
    ghost fault_count: { Self → ℕ };

    /// The failures so far. The count never falls, and stands still at `u64::MAX`.
    fn faults(&self) -> u64
        ensures { result ≡ fault_count self.now };

    /// Appends the first bytes of `piece`, and answers how many: at least one of a piece that isn't empty.
    fn put(&mut self, piece: &[u8]) -> Result<usize, SinkFault>
        ensures bound { IfOk result (λ count. count ≤ length piece.now) }
        ensures some { IfOk result (λ count. 0 < length piece.now → 0 < count) }
        ensures appended { IfOk result (λ count. Appends (held self.old) (held self.new) (take count piece.now)) }
        ensures never_falls { fault_count self.old ≤ fault_count self.new }

        // A call that took bytes counts nothing.
        ensures no_fault { OnOk result (fault_count self.new ≡ fault_count self.old) }

        // A fault comes only where the count rose in this call, and then nothing was appended.
        ensures fault { OnErr result (Rises (fault_count self.old) (fault_count self.new)) }
        ensures kept { OnErr result (Keeps (held self.old) (held self.new)) };
}
