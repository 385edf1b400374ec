//! The operations of a client and their results.
ghost use Rattle.std.specs.Prelude.{◌≡◌};
ghost use Rattle.gl_base.specs.Operation.{refusal, bytes_of, ready_of};

use crate::byte_list::ByteList;
use crate::errno::Errno;
use crate::irq::IrqDo;
use crate::name::Name;
use crate::path::Path;
use crate::pin::PinDo;

/// What a client asks of the device. A client names an open file by a slot of its own choice; who carries the
/// operations out keeps the files by their slots.
#[derive(Clone, Copy)]
pub enum Do {
    /// Makes a simulated chip of this label with so many lines, 1 to 512. Its result is the chip's place.
    Probe {
        /// The chip's label.
        label: Name,
        /// How many lines it has.
        lines: u32,
    },
    /// Removes the chip at a place.
    Unplug {
        /// The chip's place.
        place: u8,
    },
    /// Makes a directory of the tree.
    MakeDir(Path),
    /// Removes a directory of the tree.
    RemoveDir(Path),
    /// Writes a value of the tree.
    Write {
        /// The value's path.
        path: Path,
        /// The value.
        value: Name,
    },
    /// Reads a value of the tree. Its result is a text.
    Read(Path),
    /// Brings a device of the tree up, or takes it down.
    Live {
        /// The device.
        device: Name,
        /// Whether it comes up.
        up: bool,
    },
    /// Sets both clocks, in nanoseconds.
    Tick {
        /// The monotonic clock.
        mono: u64,
        /// The real clock.
        real: u64,
    },
    /// Does something with the pins of a chip.
    Pin {
        /// The chip's place.
        place: u8,
        /// What is done.
        what: PinDo,
    },
    /// Does something with the interrupt of a line.
    Irq {
        /// The chip's place.
        place: u8,
        /// The line's offset.
        offset: u32,
        /// What is done.
        what: IrqDo,
    },
    /// Pulls a line of a simulated chip up or down.
    Pull {
        /// The chip's place.
        place: u8,
        /// The line's offset.
        offset: u32,
        /// Whether it is pulled up.
        up: bool,
    },
    /// Asks for the level of a line of a simulated chip, or for its pull. Its result is 0 or 1.
    Level {
        /// The chip's place.
        place: u8,
        /// The line's offset.
        offset: u32,
        /// Whether the pull is asked for.
        pull: bool,
    },
    /// Opens the chip that a word names, into a slot. Its result is the file's number.
    OpenChip {
        /// The slot.
        slot: u32,
        /// The word.
        word: Path,
    },
    /// Looks for the lines of a name: among those of the open chip file in a slot, or of all chips. Its result
    /// is the first of them, and how many there are.
    Find {
        /// The slot; None for all chips.
        slot: Option<u32>,
        /// The name.
        name: Name,
    },
    /// A command on the open file in a slot. Its result are the bytes of its buffer.
    Ioctl {
        /// The slot.
        slot: u32,
        /// The command's number.
        cmd: u32,
        /// The buffer's length; of it the first 592 bytes are handed in.
        len: u32,
        /// The buffer's bytes. Those at and past the length are 0.
        bytes: [u8; 592],
        /// The slot of the request that the command makes; for a command that makes none it means nothing.
        made: u32,
    },
    /// Reads from the open file in a slot into a buffer of this length. Its result are the bytes that were read.
    ReadFile {
        /// The slot.
        slot: u32,
        /// The buffer's length.
        len: u32,
    },
    /// Polls the open file in a slot. Its result is what is ready.
    Poll {
        /// The slot.
        slot: u32,
    },
    /// Closes the open file in a slot.
    Close {
        /// The slot.
        slot: u32,
    },
    /// Plans that the nth call of the driver from now on fails; 0 takes the plan away.
    Plan {
        /// Which call it is, counted from 1.
        nth: u32,
    },
    /// From now on a planned driver answers with these bits where it configures lines: bit `i` says that it debounces the
    /// `i`-th of them by itself.
    Accept {
        /// The bits.
        bits: u64,
    },
    /// Makes a chip of this label whose lines are those of the requests in these slots, joined in order.
    Aggregate {
        /// The chip's label.
        label: Name,
        /// The slots of the requests; those past the count mean nothing. A request may be named more than once.
        slots: [u32; 4],
        /// How many requests there are, 1 to 4.
        count: u32,
    },
}

/// What an operation is answered.
#[derive(Drop)]
pub enum Got {
    /// It was done, and there is nothing to tell.
    Done,
    /// A number: a chip's place, a level, or a file's number.
    Number(u64),
    /// A line that has the name: the first of them.
    Found {
        /// Its chip's place.
        place: u8,
        /// Its offset.
        offset: u32,
        /// How many lines have the name.
        count: u32,
    },
    /// A value of the tree.
    Text(Name),
    /// The bytes of a buffer.
    Bytes(ByteList),
    /// What is ready: bit 0 where something waits to be read (IN), bits 1 and 2 where the chip has gone (ERR and
    /// HUP).
    Ready(u8),
    /// It was refused.
    Refused(Errno),
}

impl Got {
    /// What it refuses, if it does.
    pub fn refusal(&self) -> Option<Errno>
        ensures { result ≡ refusal self.now }
    {
        match self {
            Got::Refused(errno) => Some(*errno),
            Got::Done
            | Got::Number(_)
            | Got::Found { .. }
            | Got::Text(_)
            | Got::Bytes(_)
            | Got::Ready(_) => None,
        }
    }

    /// Its bytes; none where it has none.
    pub fn bytes(&self) -> &[u8]
        ensures { result.now ≡ bytes_of self.now }
    {
        match self {
            Got::Bytes(bytes) => bytes.as_slice(),
            Got::Done
            | Got::Number(_)
            | Got::Found { .. }
            | Got::Text(_)
            | Got::Ready(_)
            | Got::Refused(_) => &[],
        }
    }

    /// What is ready, as its bits; 0 where it is no answer of a poll.
    pub fn ready(&self) -> u8
        ensures { result ≡ ready_of self.now }
    {
        match self {
            Got::Ready(bits) => *bits,
            Got::Done
            | Got::Number(_)
            | Got::Found { .. }
            | Got::Text(_)
            | Got::Bytes(_)
            | Got::Refused(_) => 0,
        }
    }
}
