//! What a printed run is judged to be.
ghost use Rattle.std.specs.Prelude.{◌≡◌, ◌++◌, OnOk, IsOkUnless};

use crate::status::Status;
use crate::text::{put_line, put_numbered, put_refusal};
use gl_base::Errno;
use gl_script::{Refusal, RefusalKind};

/// What an input of a check is judged to be: the first of these that holds.
#[derive(Clone, Copy, PartialEq, Eq)]
pub enum Verdict {
    /// It has too many bytes.
    TooLong,
    /// Its first line isn't `check N`, or fewer than N bytes follow it.
    Header,
    /// These N bytes are no session, or one with fewer than two actors.
    NoSession,
    /// The output has no history of its form: the number of the first line that is at fault or missing, counted from 1 in the output.
    NoFormat(u64),
    /// The index of the history's first entry that isn't lawful, or the number of its entries where an actor isn't at its end.
    NoEntry(u32),
    /// What stands in front of the history isn't what the session printed then.
    NoText,
    /// It is a lawful run.
    Yes,
}

impl Verdict {
    ghost use Rattle.gl_session.specs.Verdict.{verdict_line, verdict_status};

    /// The status that a check ends with: Ran for a lawful run, Refused where there is nothing to be judged, else No.
    pub fn status(self) -> Status
        ensures { result ≡ verdict_status self }
    {
        match self {
            Verdict::TooLong | Verdict::Header => Status::Refused,
            Verdict::NoSession | Verdict::NoFormat(_) | Verdict::NoEntry(_) | Verdict::NoText =>
                Status::No,
            Verdict::Yes => Status::Ran,
        }
    }

    /// Appends the line that a check writes. `NoMemory` alone is refused.
    pub fn put_line(self, out: &mut Vec<u8>) -> Result<(), Errno>
        ensures text { OnOk result (out.new.items ≡ out.old.items ++ verdict_line self) }
        ensures memory_alone { IsOkUnless result Errno.NoMemory }
    {
        match self {
            Verdict::TooLong => put_refusal(&refusal(0, 0, RefusalKind::TooLong), out),
            Verdict::Header => put_refusal(&refusal(1, 1, RefusalKind::Header), out),
            Verdict::NoSession => put_line(b"no session", out),
            Verdict::NoFormat(line) => put_numbered(b"no format", line, out),
            Verdict::NoEntry(index) => put_numbered(b"no entry", u64::from(index), out),
            Verdict::NoText => put_line(b"no text", out),
            Verdict::Yes => put_line(b"yes", out),
        }
    }
}

/// Why an input isn't judged.
fn refusal(line: u32, column: u32, kind: RefusalKind) -> Refusal
    ensures { result ≡ record { line = line; column = column; kind = kind } }
{
    Refusal { line, column, kind }
}
