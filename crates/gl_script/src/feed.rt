//! A session's text that comes in pieces.
ghost use Rattle.std.specs.Prelude.{◌≡◌, ◌≢◌, ◌⊎◌, ◌≤◌, ◌+◌, ◌++◌, ◌==◌, [], Some, length, IfOk, IfErr, IsOkUnless, OnOk, OnErr};
ghost use Rattle.gl_script.specs.Script.{sections_of};
ghost use Rattle.gl_script.specs.Sentence.{Sentence, first_fault};

use crate::refusal::{Refusal, RefusalKind};
use crate::script::Script;
use gl_base::Errno;
use std::alloc::Global;
use std::marker::Model;

/// The bytes of a session, as far as they have come: at most one more than a session has. Contracts see the list of
/// them.
#[derive(Drop)]
pub struct Feed {
    bytes: Vec<u8>,
}

impl Model for Feed {
    ghost use Rattle.std.specs.Prelude.{List, ℕ, ◌≤◌, length};

    ghost Value = { List ℕ };

    ghost view = { λ feed. feed.bytes.items };

    ghost invariant = { λ feed. length feed.bytes.items ≤ 1048577 };
}

impl Feed {
    /// No bytes.
    pub fn new(alloc: Global) -> Result<Feed, Errno>
        ensures ok { IfOk result (λ feed. feed ≡ []) }
        ensures memory_alone { IsOkUnless result Errno.NoMemory }
    {
        Ok(Feed {
            bytes: Vec::new(alloc),
        })
    }

    /// Takes the next piece of the text in. `NoMemory` alone is refused, and then nothing was taken.
    pub fn feed(&mut self, piece: &[u8]) -> Result<(), Errno>
        requires { length self.old + length piece.now ≤ 1048577 }
        ensures ok { OnOk result (self.new ≡ self.old ++ piece.now) }
        ensures err { OnErr result (self.new ≡ self.old) }
        ensures memory_alone { IsOkUnless result Errno.NoMemory }
    {
        self.bytes.extend_from_slice(piece)?;
        Ok(())
    }

    /// How many bytes have come.
    pub fn len(&self) -> u32
        ensures length { result ≡ length self.now }
        ensures few { result ≤ 1048577 }
    {
        self.bytes.len() as u32
    }

    /// Whether none has come.
    pub fn is_empty(&self) -> bool
        ensures { result ≡ (length self.now == 0) }
    {
        self.bytes.is_empty()
    }

    /// The bytes.
    pub fn as_slice(&self) -> &[u8]
        ensures bytes { result.now ≡ self.now }
        ensures few { length self.now ≤ 1048577 }
    {
        &self.bytes
    }

    /// The session that the bytes say, whatever the pieces were in which they came. Words and names are stretches of
    /// the bytes in here.
    pub fn script(&self, alloc: Global) -> Result<Script<'_>, Refusal>
        ensures ok { IfOk result (λ script. Sentence self.now (sections_of script)) }
        ensures refused { IfErr result (λ refusal. refusal.kind ≢ RefusalKind.NoMemory → first_fault self.now ≡ Some refusal) }
        ensures no_memory { IfErr result (λ refusal. (refusal ≡ record { line = 0; column = 0; kind = RefusalKind.NoMemory }) ⊎ (first_fault self.now ≡ Some refusal)) }
    {
        Script::parse(alloc, &self.bytes)
    }
}
