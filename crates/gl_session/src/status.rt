//! How a run ends.
ghost use Rattle.std.specs.Prelude.{◌≡◌};

/// How a run ends.
#[derive(Clone, Copy, PartialEq, Eq)]
pub enum Status {
    /// The session ran, or the load, and its output was written; or a run was judged to be lawful.
    Ran,
    /// The words are none that the program takes.
    Usage,
    /// The bytes are no session, or none that could be judged.
    Refused,
    /// The session could not be read.
    ReadFault,
    /// The output could not be written.
    WriteFault,
    /// Out of memory.
    NoMemory,
    /// What was to be judged is no lawful run.
    No,
}

impl Status {
    ghost use Rattle.gl_session.specs.Status.{status_number};

    /// The number that the process ends with: 0, 2, 3, 4, 5, 6 and 7, in the order above.
    pub fn number(self) -> u8
        ensures { result ≡ status_number self }
    {
        match self {
            Status::Ran => 0,
            Status::Usage => 2,
            Status::Refused => 3,
            Status::ReadFault => 4,
            Status::WriteFault => 5,
            Status::NoMemory => 6,
            Status::No => 7,
        }
    }
}
