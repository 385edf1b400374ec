//! A sink in memory, whose room, pieces and failures are chosen when it is made.
ghost use Rattle.std.specs.Prelude.{◌≡◌, ◌<◌, ◌≤◌, ◌⊎◌, ◌↔◌, IfOk, OnOk, OnErr, IsErr, IsTrue, IsOkUnless, length, take, Some, []};
ghost use Rattle.std.specs.Io.KnownBytes.{Keeps, Appends};
ghost use Rattle.gl_base.specs.Count.{Rises};
ghost use Rattle.gl_io.specs.Memory.{is_to_fail};

use super::traits::{Sink, SinkFault};
use gl_base::{Errno, count_up};
use std::alloc::Global;
use std::marker::Model;

/// Memory for a chosen number of bytes, filled in pieces of a chosen length.
#[derive(Drop)]
pub struct MemSink {
    bytes: Vec<u8>,
    room: u32,
    piece: u32,
    fails: Vec<u64>,
    calls: u64,
    faults: u64,
}

impl Model for MemSink {
    ghost use Rattle.std.specs.Prelude.{◌≤◌, ◌<◌, vec_len, vec_capacity};
    ghost use Rattle.gl_io.specs.Memory.{MemorySink};

    ghost Value = { MemorySink };

    ghost view = { λ s. record {
      held = s.bytes.items;
      room = s.room;
      piece = s.piece;
      fails = s.fails.items;
      calls = s.calls;
      faults = s.faults;
    } };

    ghost invariant = { λ s. (vec_len s.bytes ≤ s.room) × (s.room ≤ vec_capacity s.bytes) × (0 < s.piece) };
}

impl MemSink {
    ghost use Rattle.gl_io.specs.Memory.{MemorySink};

    /// A sink that has room for `room` bytes and takes their memory now. One call appends at most `piece`
    /// bytes. The calls whose numbers, counted from 0, stand in `fails` fail, and so does a put of bytes
    /// while `room` bytes are held. `NoMemory` alone is refused.
    pub fn new(alloc: Global, room: u32, piece: u32, fails: Vec<u64>) -> Result<MemSink, Errno>
        requires { 0 < piece }
        ensures ok { IfOk result (λ sink. sink ≡ record { held = []; room = room; piece = piece; fails = fails.items; calls = 0; faults = 0 }) }
        ensures memory_alone { IsOkUnless result Errno.NoMemory }
    {
        match Vec::with_capacity(alloc, room as usize) {
            Ok(bytes) => Ok(MemSink {
                bytes,
                room,
                piece,
                fails,
                calls: 0,
                faults: 0,
            }),
            Err(_) => Err(Errno::NoMemory),
        }
    }

    /// The bytes held.
    pub fn as_slice(&self) -> &[u8]
        ensures { result.now ≡ self.now.held }
    {
        self.bytes.as_slice()
    }
}

impl Sink for MemSink {
    ghost use Rattle.gl_io.specs.Memory.{is_to_fail, put_count, after_put, after_failed_put};

    ghost held = { λ sink. Some sink.held };

    ghost fault_count = { λ sink. sink.faults };

    fn faults(&self) -> u64 {
        self.faults
    }

    fn put(&mut self, piece: &[u8]) -> Result<usize, SinkFault>
        ensures bound { IfOk result (λ count. count ≤ length piece.now) }
        ensures some { IfOk result (λ count. 0 < length piece.now → 0 < count) }
        ensures appended { IfOk result (λ count. Appends (Some self.old.held) (Some self.new.held) (take count piece.now)) }
        ensures never_falls { self.old.faults ≤ self.new.faults }
        ensures no_fault { OnOk result (self.new.faults ≡ self.old.faults) }
        ensures fault { OnErr result (Rises self.old.faults self.new.faults) }
        ensures kept { OnErr result (Keeps (Some self.old.held) (Some self.new.held)) }

        // The calls fail that are to fail, and a put of bytes while the room is used up, and no other.
        ensures which { IsErr result ↔ (IsTrue (is_to_fail self.old.fails self.old.calls) ⊎ ((0 < length piece.now) × (self.old.room ≤ length self.old.held))) }
        ensures count { IfOk result (λ count. count ≡ put_count self.old (length piece.now)) }
        ensures after { IfOk result (λ count. self.new ≡ after_put self.old piece.now count) }

        // A call that fails changes the counts alone.
        ensures failed { OnErr result (self.new ≡ after_failed_put self.old) }
    {
        let space = self.room as usize - self.bytes.len();
        let fails = is_refused(&self.fails, self.calls, space, piece.len());
        self.calls = count_up(self.calls);
        if fails {
            self.faults = count_up(self.faults);
            return Err(SinkFault);
        }
        let count = piece.len().min(self.piece as usize).min(space);
        self.bytes.extend_from_slice(&piece[..count]).unwrap();
        Ok(count)
    }
}

/// Whether a put of `len` bytes fails: its call is to fail, or there is no space for any of them.
fn is_refused(fails: &[u64], call: u64, space: usize, len: usize) -> bool
    ensures { IsTrue result ↔ (IsTrue (is_to_fail fails.now call) ⊎ ((0 < len) × (space ≡ 0))) }
{
    fails.contains(&call) || (space == 0 && len > 0)
}
