//! Bytes that a value owns.
ghost use Rattle.std.specs.Prelude.{◌≡◌, [], ◌++◌, OnOk, OnErr, IsOkUnless};

use crate::errno::Errno;
use std::alloc::Global;
use std::marker::Model;

/// Bytes that a value owns. Contracts see the list of them.
#[derive(Drop)]
pub struct ByteList {
    bytes: Vec<u8>,
}

impl Model for ByteList {
    ghost use Rattle.std.specs.Prelude.{List, ℕ};

    ghost Value = { List ℕ };

    ghost view = { λ b. b.bytes.items };
}

impl ByteList {
    /// No bytes.
    pub fn new(alloc: Global) -> ByteList
        ensures { result ≡ [] }
    {
        ByteList {
            bytes: Vec::new(alloc),
        }
    }

    /// These bytes, without taking memory.
    pub fn of(bytes: Vec<u8>) -> ByteList
        ensures { result ≡ bytes.items }
    {
        ByteList { bytes }
    }

    /// The bytes, without taking memory.
    pub fn into_vec(self) -> Vec<u8>
        ensures { result.items ≡ self }
    {
        self.bytes
    }

    /// The bytes.
    pub fn as_slice(&self) -> &[u8]
        ensures { result.now ≡ self.now }
    {
        &self.bytes
    }

    /// Appends a piece. `NoMemory` alone is refused, and then the bytes are as they were.
    pub fn push_all(&mut self, piece: &[u8]) -> Result<(), Errno>
        ensures ok { OnOk result (self.new ≡ self.old ++ piece.now) }
        ensures err { OnErr result (self.new ≡ self.old) }
        ensures memory_alone { IsOkUnless result Errno.NoMemory }
    {
        self.bytes.extend_from_slice(piece)?;
        Ok(())
    }
}
