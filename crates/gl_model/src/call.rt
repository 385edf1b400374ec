//! The calls of the machine.

use gl_base::{IrqDo, Kind, Name, Path, PinDo};

/// Which entry of the history a command makes. A command that asks the driver has two: it is asked for, and
/// after the driver's answer it is told. Every other command is whole.
///
/// This is this project's choice.
#[derive(Clone, Copy, PartialEq, Eq)]
pub enum Part {
    /// The command needs no driver.
    Whole,
    /// What is asked for is checked, and the driver is asked next.
    Ask,
    /// What the driver answered: a bit for each line of the request, or `None` where it failed.
    Tell(Option<u64>),
}

/// A call of the machine, with all its arguments.
///
/// `place` is below `PLACES` wherever it stands, and `offset` is a line's offset on the chip there. `fd` is
/// the number of an open file.
#[derive(Clone, Copy, PartialEq, Eq)]
pub enum Call {
    /// Makes a chip outside the tree, with 1 to `LINES_MAX` lines.
    Probe {
        label: Name,
        lines: u32,
        kind: Kind,
    },
    /// Removes a chip that is of no device of the tree: the first entry begins, the last one ends.
    Unplug {
        place: u8,
        last: bool,
    },
    /// Makes a directory of the tree.
    MakeDir {
        path: Path,
    },
    /// Removes a directory of the tree.
    RemoveDir {
        path: Path,
    },
    /// Writes a value to a file of the tree.
    Write {
        path: Path,
        value: Name,
    },
    /// Reads a file of the tree.
    Read {
        path: Path,
    },
    /// Makes the chips of a device.
    Live {
        device: Name,
    },
    /// Removes the chips of a device: the first entry begins, the last one ends.
    Remove {
        device: Name,
        last: bool,
    },
    /// Sets the monotonic and the real clock, in nanoseconds.
    Tick {
        mono: u64,
        real: u64,
    },
    /// Does something with the pins of a chip.
    Pin {
        place: u8,
        what: PinDo,
    },
    /// Does something with the interrupt of a line.
    Irq {
        place: u8,
        offset: u32,
        what: IrqDo,
    },
    /// Pulls a line of a simulated chip up or down.
    Pull {
        place: u8,
        offset: u32,
        up: bool,
    },
    /// Reads the physical level of a line of a simulated chip, or its pull.
    Level {
        place: u8,
        offset: u32,
        pull: bool,
    },
    /// An interrupt of a remote chip tells the level of a line.
    Interrupt {
        place: u8,
        offset: u32,
        up: bool,
    },
    /// Opens the chip that has this word.
    OpenChip {
        word: Path,
    },
    /// Looks for the lines of this name, on one chip or on all.
    Find {
        place: Option<u8>,
        name: Name,
    },
    /// A command on an open file. The buffer has `len` bytes, and begins with the first `len` of `bytes`.
    Ioctl {
        place: u8,
        fd: u32,
        cmd: u32,
        len: u32,
        bytes: [u8; 592],
        part: Part,
    },
    /// Reads events of a request into a buffer of `len` bytes.
    ReadEdges {
        place: u8,
        fd: u32,
        len: u32,
    },
    /// Reads changes of watched lines into a buffer of `len` bytes.
    ReadInfo {
        place: u8,
        fd: u32,
        len: u32,
    },
    /// Asks whether an event of a request waits.
    PollLine {
        place: u8,
        fd: u32,
    },
    /// Asks whether a change of a watched line waits.
    PollChip {
        place: u8,
        fd: u32,
    },
    /// Closes a file.
    Close {
        fd: u32,
    },
    /// Records a call that was refused at the closed guard of a place: a poll, or any other call.
    Refused {
        place: u8,
        poll: bool,
    },
}
