//! How the serving of a session ends.
ghost use Rattle.std.specs.Prelude.{◌≡◌};

/// How the serving of a session ends.
#[derive(Clone, Copy, PartialEq, Eq)]
pub enum Ended {
    /// The source came to its end, and the open files were closed.
    AtEnd,
    /// The source could not be read.
    ReadFault,
    /// The sink could not be written.
    WriteFault,
    /// Out of memory.
    NoMemory,
}

impl Ended {
    ghost use Rattle.gl_served.specs.Ended.{ended_number};

    /// The number that the process ends with: 0, 4, 5 and 6, in the order above.
    pub fn number(self) -> u8
        ensures { result ≡ ended_number self }
    {
        match self {
            Ended::AtEnd => 0,
            Ended::ReadFault => 4,
            Ended::WriteFault => 5,
            Ended::NoMemory => 6,
        }
    }
}
