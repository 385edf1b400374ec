//! What a statement says.
ghost use Rattle.std.specs.Prelude.{◌≡◌, Some};
ghost use Rattle.gl_script.specs.Cost.{is_aggregate};
ghost use Rattle.gl_script.specs.Said.{keyword_said};

use gl_base::{IrqDo, Name, Path, PinDo};

/// What a statement says, one variant a statement: each word that is given to the device, or that something is called by from then
/// on, is here as what it means. The words of tools, the pieces of a command and the name of a file that is there already stand for
/// themselves (`Statement::word`).
#[derive(Clone, Copy)]
pub enum Said {
    /// `probe LABEL N`.
    Probe {
        /// The chip's label.
        label: Name,
        /// How many lines the chip has, 1 to 512.
        lines: u32,
    },
    /// `unplug CHIP`.
    Unplug {
        /// The chip's number, 0 to 63.
        chip: u8,
    },
    /// `mkdir PATH`.
    MakeDir {
        /// The path in the tree.
        path: Path,
    },
    /// `rmdir PATH`.
    RemoveDir {
        /// The path in the tree.
        path: Path,
    },
    /// `write PATH VALUE`.
    Write {
        /// The path in the tree.
        path: Path,
        /// The text that is written.
        value: Name,
    },
    /// `read PATH`.
    Read {
        /// The path in the tree.
        path: Path,
    },
    /// `clock N N`.
    Clock {
        /// The monotonic clock, in nanoseconds.
        mono: u64,
        /// The real clock.
        real: u64,
    },
    /// `fault N`.
    Fault {
        /// Which call of the driver fails, from now on, counted from 1.
        nth: u32,
    },
    /// `accept N`, from `session 2` on.
    Accept {
        /// The bits that the driver accepts.
        bits: u64,
    },
    /// `aggregate LABEL NAME [NAME [NAME [NAME]]]`.
    Aggregate {
        /// The label of the chip.
        label: Name,
    },
    /// `pin range CHIP N N N`, `pin hold CHIP N` or `pin drop CHIP N`.
    Pin {
        /// The chip's number, 0 to 63.
        chip: u8,
        /// What is done with its pins.
        what: PinDo,
    },
    /// `irq lock CHIP N`, and with the other words of an interrupt.
    Irq {
        /// What is done with the interrupt.
        what: IrqDo,
        /// The chip's number, 0 to 63.
        chip: u8,
        /// The line's offset.
        offset: u32,
    },
    /// `open NAME WORD`.
    Open {
        /// The name that the file gets.
        name: Name,
        /// The word that names the chip.
        word: Path,
    },
    /// `ioctl NAME COMMAND PIECES.. [as NAME]`.
    Ioctl {
        /// The command's number.
        command: u32,
        /// The name behind `as`, exactly where the command makes a file.
        made: Option<Name>,
    },
    /// `events NAME N`.
    Events {
        /// How many bytes are read at most.
        len: u16,
    },
    /// `ioctl1 NAME COMMAND PIECES.. [as NAME]`.
    OldIoctl {
        /// The command's number in the first uAPI.
        command: u32,
        /// The name behind `as`, exactly where the command makes a file.
        made: Option<Name>,
    },
    /// `events1 NAME N`.
    OldEvents {
        /// How many bytes are read at most.
        len: u16,
    },
    /// `changes NAME N`.
    Changes {
        /// How many bytes are read at most.
        len: u16,
    },
    /// `poll NAME`.
    Poll,
    /// `close NAME`.
    Close,
    /// `gpiodetect`.
    Detect,
    /// `gpioinfo`.
    Info,
    /// `gpioget`.
    Get,
    /// `gpioset`.
    Set,
    /// `start NAME TOOL ..`.
    Start {
        /// The name that the tool gets.
        name: Name,
    },
    /// `step NAME N`.
    Step {
        /// The tool's name.
        name: Name,
        /// How many turns the tool makes, 1 to 1000.
        turns: u32,
    },
    /// `stop NAME`.
    Stop {
        /// The tool's name.
        name: Name,
    },
}

impl Said {
    /// Whether it is that of an `aggregate`.
    pub fn is_aggregate(&self) -> bool
        ensures { result ≡ is_aggregate (Some (keyword_said self.now)) }
    {
        matches!(self, Said::Aggregate { .. })
    }
}
