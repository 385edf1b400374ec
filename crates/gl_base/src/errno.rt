//! The errors.
ghost use Rattle.std.specs.Prelude.{◌≡◌};
ghost use Rattle.gl_base.specs.Errno.{errno_number, errno_name};
ghost use Rattle.gl_base.specs.declared.errno.Errno.TheVariants.{NoMemory};

use std::alloc::{AllocError, AllocFailed};

/// Why a call is refused: the errors of Linux (`errno.h`) that a GPIO call answers, and `Full`.
#[derive(Clone, Copy, PartialEq, Eq, Debug)]
pub enum Errno {
    /// The call isn't permitted.
    Perm,
    /// There is no such chip, directory or line.
    NoEnt,
    /// The driver failed, or the line is locked as an interrupt.
    Io,
    /// The line has no interrupt.
    NxIo,
    /// No open file has this number.
    BadF,
    /// Nothing waits to be read.
    Again,
    /// Memory is wanted.
    NoMemory,
    /// The buffer is shorter than the command's structure.
    Fault,
    /// The line, or what was named, is in use.
    Busy,
    /// The directory is there already.
    Exist,
    /// The chip was removed.
    NoDev,
    /// An argument isn't valid.
    Inval,
    /// Too many files are open.
    MFile,
    /// There is no room left.
    NoSpc,
    /// The flag isn't supported.
    OpNotSupp,
    /// The history has no room left. This is no error of Linux but this project's choice.
    Full,
}

impl Errno {
    /// The error's number: that of Linux, and 1000 for `Full`.
    pub fn number(self) -> u32
        ensures { result ≡ errno_number self }
    {
        match self {
            Errno::Perm => 1,
            Errno::NoEnt => 2,
            Errno::Io => 5,
            Errno::NxIo => 6,
            Errno::BadF => 9,
            Errno::Again => 11,
            Errno::NoMemory => 12,
            Errno::Fault => 14,
            Errno::Busy => 16,
            Errno::Exist => 17,
            Errno::NoDev => 19,
            Errno::Inval => 22,
            Errno::MFile => 24,
            Errno::NoSpc => 28,
            Errno::OpNotSupp => 95,
            Errno::Full => 1000,
        }
    }

    /// The error's name as Linux writes it, as `EPERM`; `FULL` for `Full`.
    pub fn name(self) -> &'static str
        ensures { result.now ≡ errno_name self }
    {
        match self {
            Errno::Perm => "EPERM",
            Errno::NoEnt => "ENOENT",
            Errno::Io => "EIO",
            Errno::NxIo => "ENXIO",
            Errno::BadF => "EBADF",
            Errno::Again => "EAGAIN",
            Errno::NoMemory => "ENOMEM",
            Errno::Fault => "EFAULT",
            Errno::Busy => "EBUSY",
            Errno::Exist => "EEXIST",
            Errno::NoDev => "ENODEV",
            Errno::Inval => "EINVAL",
            Errno::MFile => "EMFILE",
            Errno::NoSpc => "ENOSPC",
            Errno::OpNotSupp => "EOPNOTSUPP",
            Errno::Full => "FULL",
        }
    }
}

impl From<AllocError> for Errno {
    ghost from_gives = { λ _ errno. errno ≡ NoMemory };

    fn from(_failed: AllocError) -> Errno {
        Errno::NoMemory
    }
}

impl<T: Drop> From<AllocFailed<T>> for Errno {
    ghost from_gives = { λ _ errno. errno ≡ NoMemory };

    fn from(_failed: AllocFailed<T>) -> Errno {
        Errno::NoMemory
    }
}
