//! The calls of the device, as its callers make them.

use crate::call::Call;
use gl_base::Name;

/// What a removal takes away.
#[derive(Clone, Copy)]
pub enum RemovalOf {
    /// The chip of a place, which is below `PLACES`.
    OfChip(u8),
    /// All chips of a device of the tree.
    OfDevice(Name),
}

/// A command as it is handed in (`ioctl(2)`).
#[derive(Clone, Copy)]
pub struct CommandIn {
    /// The place of its file's chip, below `PLACES`.
    pub place: u8,
    /// The file's number.
    pub fd: u32,
    /// Whether the file is a chip's; else it is a request.
    pub of_chip: bool,
    /// The command's number (`linux/gpio.h`).
    pub cmd: u32,
    /// The length of its buffer in bytes.
    pub len: u32,
    /// The first bytes of the buffer, at most as many as the longest structure has, and then zeros.
    pub bytes: [u8; 592],
}

/// A call of the device. A removal and a command that asks the driver make two entries of the history, every other call one.
#[derive(Clone, Copy)]
pub enum DeviceCall {
    /// One call of the machine, whole by itself.
    Once(Call),
    /// A removal.
    Removing(RemovalOf),
    /// A command on an open file.
    Commanding(CommandIn),
}
