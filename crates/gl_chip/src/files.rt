//! Open files of the device, as their holders have them.

ghost use Rattle.std.specs.Prelude.{◌≡◌, ◌<◌, ◌^◌, length};
ghost use Rattle.gl_asking.specs.Handed.{command_in};

use gl_asking::handed_in;
use gl_base::Lines;
use gl_model::CommandIn;
use std::marker::Model;

/// An open chip. It is closed by `Gpio::close_chip`.
#[derive(Drop)]
pub struct ChipFd {
    pub(crate) place: u8,
    pub(crate) fd: u32,
}

impl Model for ChipFd {
    ghost use Rattle.std.specs.Prelude.{◌<◌};
    ghost use Rattle.gl_base.specs.declared.limits.TheConstants.{PLACES};
    ghost use Rattle.gl_asking.specs.Opened.{ChipFile};

    ghost Value = { ChipFile };

    ghost view = { λ f. record { place = f.place; fd = f.fd } };

    ghost invariant = { λ f. f.place < PLACES };
}

impl ChipFd {
    ghost use Rattle.std.specs.Prelude.{◌≡◌, ◌<◌, ◌^◌, true, length};
    ghost use Rattle.gl_asking.specs.Handed.{command_in};
    ghost use Rattle.gl_base.specs.declared.limits.TheConstants.{PLACES};

    /// The number of the file.
    pub fn number(&self) -> u32
        ensures { result ≡ self.now.fd }
    {
        self.fd
    }

    /// The place of the chip.
    pub fn place(&self) -> u8
        ensures place { result ≡ self.now.place }
        ensures below { result < PLACES }
    {
        self.place
    }

    /// A command on it, with the buffer that it is called with.
    pub(crate) fn command(&self, cmd: u32, buffer: &[u8]) -> CommandIn
        requires { length buffer.now < 2 ^ 32 }
        ensures told { result ≡ command_in self.now.place self.now.fd true cmd buffer.now }
        ensures place { result.place < PLACES }
    {
        command_on(self.place, self.fd, true, cmd, buffer)
    }
}

/// An open request of lines. It is closed by `Gpio::close_line`.
#[derive(Drop)]
pub struct LineFd {
    pub(crate) place: u8,
    pub(crate) fd: u32,
    pub(crate) lines: Lines,
}

impl Model for LineFd {
    ghost use Rattle.std.specs.Prelude.{◌<◌};
    ghost use Rattle.gl_base.specs.Lines.{IsLineCount};
    ghost use Rattle.gl_base.specs.declared.limits.TheConstants.{PLACES};
    ghost use Rattle.gl_chip.specs.Files.{LineFile};

    ghost Value = { LineFile };

    ghost view = { λ f. record { place = f.place; fd = f.fd; lines = f.lines } };

    ghost invariant = { λ f. (f.place < PLACES) × IsLineCount f.lines.count };
}

impl LineFd {
    ghost use Rattle.std.specs.Prelude.{◌≡◌, ◌<◌, ◌^◌, false, length};
    ghost use Rattle.gl_asking.specs.Handed.{command_in};
    ghost use Rattle.gl_base.specs.Lines.{IsLineCount};
    ghost use Rattle.gl_base.specs.declared.limits.TheConstants.{PLACES};

    /// The number of the request.
    pub fn number(&self) -> u32
        ensures { result ≡ self.now.fd }
    {
        self.fd
    }

    /// The place of the lines' chip.
    pub fn place(&self) -> u8
        ensures place { result ≡ self.now.place }
        ensures below { result < PLACES }
    {
        self.place
    }

    /// The lines, in the order of the request.
    pub fn lines(&self) -> Lines
        ensures lines { result ≡ self.now.lines }
        ensures count { IsLineCount result.count }
    {
        self.lines
    }

    /// A command on it, with the buffer that it is called with.
    pub(crate) fn command(&self, cmd: u32, buffer: &[u8]) -> CommandIn
        requires { length buffer.now < 2 ^ 32 }
        ensures told { result ≡ command_in self.now.place self.now.fd false cmd buffer.now }
        ensures place { result.place < PLACES }
    {
        command_on(self.place, self.fd, false, cmd, buffer)
    }
}

/// The command of a number on an open file, with the buffer that it is called with.
fn command_on(place: u8, fd: u32, of_chip: bool, cmd: u32, buffer: &[u8]) -> CommandIn
    requires { length buffer.now < 2 ^ 32 }
    ensures { result ≡ command_in place fd of_chip cmd buffer.now }
{
    CommandIn {
        place,
        fd,
        of_chip,
        cmd,
        len: buffer.len() as u32,
        bytes: handed_in(buffer),
    }
}
