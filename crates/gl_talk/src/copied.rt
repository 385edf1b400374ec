//! The statement that is under way, in a copy of its own.
ghost use Rattle.std.specs.Prelude.{◌≡◌, Some, IfOk, IsOkUnless};
ghost use Rattle.std.specs.Coded.{Coded-set, coded_option};
ghost use Rattle.gl_script.specs.Columns.{columns};
ghost use Rattle.gl_script.specs.Formed.{AreFormed};
ghost use Rattle.gl_script.specs.Said.{said_of};
ghost use Rattle.gl_talk.specs.Words.{bytes_in};

use crate::words::bytes_said;
use gl_base::Errno;
use gl_script::{Said, Statement};
use std::alloc::Global;

/// A statement with a line of its own, what its words say, and the bytes that its pieces say, which were read once.
#[derive(Drop)]
pub struct CopiedStatement {
    /// Its line.
    pub line: Vec<u8>,
    /// What its words say.
    pub said: Said,
    /// The bytes that its pieces say; a statement that is no command has none.
    pub bytes: Vec<u8>,
    pub ghost read: { said_of (columns line.items) ≡ Some said } by { Coded-set (coded_option said-code) (said_of (columns line.items)) (Some said) },
    pub ghost pieces: { bytes_in said (columns line.items) ≡ bytes.items },
}

impl CopiedStatement {
    ghost use Rattle.gl_script.specs.Pieces.{behind_three};
    ghost use Rattle.gl_talk.specs.Copied.{words_of};
    ghost use Rattle.gl_talk.specs.Words.{bytes_said, is_command};
    ghost use Rattle.std.specs.Prelude.{true};

    /// A copy of a statement. `NoMemory` alone is refused.
    pub fn of(alloc: Global, statement: &Statement<'_>) -> Result<CopiedStatement, Errno>
        ensures ok { IfOk result (λ copied. copied.line.items ≡ statement.now.line.now) }
        ensures memory_alone { IsOkUnless result Errno.NoMemory }
    {
        let said = statement.said();
        let bytes = bytes_of(alloc, &said, statement.line())?;
        let line = statement.line().to_vec(alloc)?;
        Ok(CopiedStatement { line, said, bytes })
    }

    /// The bytes that a command says.
    pub fn command_bytes(&self) -> &[u8]
        requires { is_command self.now.said ≡ true }
        ensures { result.now ≡ bytes_said (behind_three (words_of self.now)) }
    {
        &self.bytes
    }
}

/// The bytes that the pieces of a line say, whose statement says this.
fn bytes_of(alloc: Global, said: &Said, line: &[u8]) -> Result<Vec<u8>, Errno>
    requires { AreFormed said.now (columns line.now) }
    ensures ok { IfOk result (λ bytes. bytes_in said.now (columns line.now) ≡ bytes.items) }
    ensures memory_alone { IsOkUnless result Errno.NoMemory }
{
    match said {
        Said::Ioctl { .. } | Said::OldIoctl { .. } => bytes_said(alloc, line),
        _ => Ok(Vec::new(alloc)),
    }
}
