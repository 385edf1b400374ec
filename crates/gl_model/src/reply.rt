//! What the machine answers.

use gl_base::{Errno, Name};

/// The reply to a call.
#[derive(Clone, Copy, PartialEq, Eq)]
pub enum Reply {
    /// The call was done.
    Done,
    /// The number that was asked for: the place of a new chip, the number of a file, a level or a pull as 0
    /// or 1, or how many bytes were read.
    Number(u64),
    /// The driver is to be asked next. The number is that of the claimed request, or 0.
    Go(u32),
    /// The first line of a name, by place and offset, and how many lines have it.
    Found { place: u8, offset: u32, count: u32 },
    /// The value of a file of the tree.
    Text(Name),
    /// What a file is ready for: bit 0 for a read, bit 1 for an error, bit 2 for a hang-up.
    Ready(u8),
    /// The call was refused.
    Refused(Errno),
}
