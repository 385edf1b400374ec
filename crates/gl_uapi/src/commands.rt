//! The commands of the character device's files.

ghost use Rattle.std.specs.Prelude.{◌≡◌};
ghost use Rattle.gl_uapi.specs.Command.{command_of, size_of};

use crate::layout::{
    CHIP_INFO_SIZE, LINE_CONFIG_SIZE, LINE_INFO_SIZE, LINE_REQUEST_SIZE, LINE_VALUES_SIZE,
    UNWATCH_SIZE,
};
use gl_base::command::{
    GET_CHIPINFO, GET_LINE, GET_LINEINFO, GET_LINEINFO_UNWATCH, GET_LINEINFO_WATCH,
    LINE_GET_VALUES, LINE_SET_CONFIG, LINE_SET_VALUES,
};

/// A command: the first five are those of a chip's file, the others those of a request's file.
#[derive(Clone, Copy, PartialEq, Eq)]
pub enum Command {
    /// Asks for the information on a chip.
    ChipInfo,
    /// Asks for the information on a line.
    LineInfo,
    /// Asks for the information on a line, and watches the line from then on.
    Watch,
    /// Stops watching a line.
    Unwatch,
    /// Requests lines.
    GetLine,
    /// Configures the lines of a request anew.
    SetConfig,
    /// Asks for the values of a request's lines.
    GetValues,
    /// Sets the values of a request's lines.
    SetValues,
}

impl Command {
    /// The command of that number, or None where no command of uAPI v2 has it.
    pub fn of(number: u32) -> Option<Command>
        ensures { result ≡ command_of number }
    {
        match number {
            GET_CHIPINFO => Some(Command::ChipInfo),
            GET_LINEINFO => Some(Command::LineInfo),
            GET_LINEINFO_WATCH => Some(Command::Watch),
            GET_LINEINFO_UNWATCH => Some(Command::Unwatch),
            GET_LINE => Some(Command::GetLine),
            LINE_SET_CONFIG => Some(Command::SetConfig),
            LINE_GET_VALUES => Some(Command::GetValues),
            LINE_SET_VALUES => Some(Command::SetValues),
            _ => None,
        }
    }

    /// The length in bytes of the command's structure.
    pub fn size(self) -> u32
        ensures { result ≡ size_of self }
    {
        let size = match self {
            Command::ChipInfo => CHIP_INFO_SIZE,
            Command::LineInfo | Command::Watch => LINE_INFO_SIZE,
            Command::Unwatch => UNWATCH_SIZE,
            Command::GetLine => LINE_REQUEST_SIZE,
            Command::SetConfig => LINE_CONFIG_SIZE,
            Command::GetValues | Command::SetValues => LINE_VALUES_SIZE,
        };
        size as u32
    }
}
