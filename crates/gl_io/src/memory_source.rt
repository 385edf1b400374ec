//! A source in memory, whose pieces and failures are chosen when it is made.
ghost use Rattle.std.specs.Prelude.{◌≡◌, ◌<◌, ◌≤◌, ◌++◌, ◌↔◌, min, IfOk, OnOk, OnErr, IsErr, IsTrue, length, take, drop, Some};
ghost use Rattle.std.specs.Io.KnownBytes.{Keeps, Consumes, IsAtEnd};
ghost use Rattle.gl_base.specs.Count.{Rises};

use super::traits::{Source, SourceFault};
use gl_base::count_up;
use std::marker::Model;

/// Bytes in memory, handed out in pieces of a chosen length.
#[derive(Drop)]
pub struct MemSource {
    bytes: Vec<u8>,
    at: usize,
    piece: u32,
    fails: Vec<u64>,
    calls: u64,
    faults: u64,
}

impl Model for MemSource {
    ghost use Rattle.std.specs.Prelude.{drop as dropped, ◌≤◌, ◌<◌, vec_len};
    ghost use Rattle.gl_io.specs.Memory.{MemorySource};

    ghost Value = { MemorySource };

    ghost view = { λ s. record {
      left = dropped s.at s.bytes.items;
      piece = s.piece;
      fails = s.fails.items;
      calls = s.calls;
      faults = s.faults;
    } };

    ghost invariant = { λ s. (s.at ≤ vec_len s.bytes) × (0 < s.piece) };
}

impl MemSource {
    ghost use Rattle.gl_io.specs.Memory.{MemorySource};

    /// A source of these bytes. One call moves at most `piece` of them, and the calls whose numbers,
    /// counted from 0, stand in `fails` fail.
    pub fn new(bytes: Vec<u8>, piece: u32, fails: Vec<u64>) -> MemSource
        requires { 0 < piece }
        ensures { result ≡ record { left = bytes.items; piece = piece; fails = fails.items; calls = 0; faults = 0 } }
    {
        MemSource {
            bytes,
            at: 0,
            piece,
            fails,
            calls: 0,
            faults: 0,
        }
    }
}

impl Source for MemSource {
    ghost use Rattle.gl_io.specs.Memory.{is_to_fail, take_count, after_take, after_failed_take};

    ghost left = { λ source. Some source.left };

    ghost fault_count = { λ source. source.faults };

    fn faults(&self) -> u64 {
        self.faults
    }

    fn take(&mut self, buf: &mut [u8]) -> Result<usize, SourceFault>
        ensures bound { IfOk result (λ count. count ≤ length buf.old) }
        ensures taken { IfOk result (λ count. Consumes (Some self.old.left) (Some self.new.left) (take count buf.new)) }
        ensures end { IfOk result (λ count. count ≡ 0 → 0 < length buf.old → IsAtEnd (Some self.new.left)) }
        ensures never_falls { self.old.faults ≤ self.new.faults }
        ensures no_fault { OnOk result (self.new.faults ≡ self.old.faults) }
        ensures fault { OnErr result (Rises self.old.faults self.new.faults) }
        ensures kept { OnErr result (Keeps (Some self.old.left) (Some self.new.left)) }

        // Exactly the calls fail that are to fail.
        ensures which { IsErr result ↔ IsTrue (is_to_fail self.old.fails self.old.calls) }
        ensures count { IfOk result (λ count. count ≡ take_count self.old (length buf.old)) }
        ensures after { IfOk result (λ count. self.new ≡ after_take self.old count) }
        ensures buffer { IfOk result (λ count. buf.new ≡ take count self.old.left ++ drop count buf.old) }

        // A call that fails changes the counts alone.
        ensures failed { OnErr result ((self.new ≡ after_failed_take self.old) × (buf.new ≡ buf.old)) }
    {
        let fails = self.fails.contains(&self.calls);
        self.calls = count_up(self.calls);
        if fails {
            self.faults = count_up(self.faults);
            return Err(SourceFault);
        }
        let (_, rest) = self.bytes.split_at(self.at);
        let count = copy_front(rest, buf, self.piece as usize);
        self.at += count;
        Ok(count)
    }
}

/// Copies at most `most` of the first bytes of `from` to the front of `to`, and answers how many.
fn copy_front(from: &[u8], to: &mut [u8], most: usize) -> usize
    ensures count { result ≡ min (min (length to.old) most) (length from.now) }
    ensures whole { to.new ≡ take result from.now ++ drop result to.old }
    ensures front { take result to.new ≡ take result from.now }
{
    let count = to.len().min(most).min(from.len());
    to[..count].copy_from_slice(&from[..count]);
    count
}
