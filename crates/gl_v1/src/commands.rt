//! The commands of the first uAPI, and the files that have them.

ghost use Rattle.std.specs.Prelude.{◌≡◌};
ghost use Rattle.std.specs.Option.{option_map};
ghost use Rattle.gl_v1.specs.Commands.{chip_commands, command_for, event_commands, handle_commands, lines_of, numbered, sent_as, size_of};

use crate::layout::{
    V1_CHIP_INFO_SIZE, V1_EVENT_REQUEST_SIZE, V1_HANDLE_CONFIG_SIZE, V1_HANDLE_DATA_SIZE,
    V1_HANDLE_REQUEST_SIZE, V1_LINE_INFO_SIZE,
};
use gl_base::command::{
    GET_CHIPINFO, GET_LINE, GET_LINEINFO, LINE_GET_VALUES, LINE_SET_CONFIG, LINE_SET_VALUES,
};

/// The number of `GPIO_GET_LINEINFO_IOCTL`.
pub const LINE_INFO: u32 = 0xC048_B402;
/// The number of `GPIO_GET_LINEHANDLE_IOCTL`.
pub const LINE_HANDLE: u32 = 0xC16C_B403;
/// The number of `GPIO_GET_LINEEVENT_IOCTL`.
pub const LINE_EVENT: u32 = 0xC030_B404;
/// The number of `GPIOHANDLE_GET_LINE_VALUES_IOCTL`.
pub const HANDLE_GET_VALUES: u32 = 0xC040_B408;
/// The number of `GPIOHANDLE_SET_LINE_VALUES_IOCTL`.
pub const HANDLE_SET_VALUES: u32 = 0xC040_B409;
/// The number of `GPIOHANDLE_SET_CONFIG_IOCTL`.
pub const HANDLE_SET_CONFIG: u32 = 0xC054_B40A;

/// What kind of file a command is made on.
#[derive(Clone, Copy, PartialEq, Eq)]
pub enum KindV1 {
    /// A chip's file.
    Chip,
    /// A handle of that many lines, 1 to 64.
    Handle(u32),
    /// A line whose edges are events.
    Event,
}

/// A command of the first uAPI.
#[derive(Clone, Copy, PartialEq, Eq)]
pub enum CommandV1 {
    /// Asks for the information on a chip: `GPIO_GET_CHIPINFO_IOCTL`, which v2 shares.
    ChipInfo,
    /// Asks for the information on a line.
    LineInfo,
    /// Requests lines as a handle.
    LineHandle,
    /// Requests one line and its edges.
    LineEvent,
    /// Asks for the values of a request's lines.
    GetValues,
    /// Sets the values of a handle's lines.
    SetValues,
    /// Configures the lines of a handle anew.
    SetConfig,
}

impl CommandV1 {
    /// The command of that number on a file of that kind, or None where such a file has none of that number.
    pub fn of(kind: KindV1, number: u32) -> Option<CommandV1>
        ensures { result ≡ command_for kind number }
    {
        match kind {
            KindV1::Chip => CommandV1::of_chip(number),
            KindV1::Handle(_) => CommandV1::of_handle(number),
            KindV1::Event => CommandV1::of_event(number),
        }
    }

    fn of_chip(number: u32) -> Option<CommandV1>
        ensures { result ≡ numbered number chip_commands }
    {
        match number {
            GET_CHIPINFO => Some(CommandV1::ChipInfo),
            LINE_INFO => Some(CommandV1::LineInfo),
            LINE_HANDLE => Some(CommandV1::LineHandle),
            LINE_EVENT => Some(CommandV1::LineEvent),
            _ => None,
        }
    }

    fn of_handle(number: u32) -> Option<CommandV1>
        ensures { result ≡ numbered number handle_commands }
    {
        match number {
            HANDLE_GET_VALUES => Some(CommandV1::GetValues),
            HANDLE_SET_VALUES => Some(CommandV1::SetValues),
            HANDLE_SET_CONFIG => Some(CommandV1::SetConfig),
            _ => None,
        }
    }

    fn of_event(number: u32) -> Option<CommandV1>
        ensures { result ≡ numbered number event_commands }
    {
        match number {
            HANDLE_GET_VALUES => Some(CommandV1::GetValues),
            _ => None,
        }
    }

    /// The length in bytes of the command's structure.
    pub fn size(self) -> u32
        ensures { result ≡ size_of self }
    {
        let size = match self {
            CommandV1::ChipInfo => V1_CHIP_INFO_SIZE,
            CommandV1::LineInfo => V1_LINE_INFO_SIZE,
            CommandV1::LineHandle => V1_HANDLE_REQUEST_SIZE,
            CommandV1::LineEvent => V1_EVENT_REQUEST_SIZE,
            CommandV1::GetValues | CommandV1::SetValues => V1_HANDLE_DATA_SIZE,
            CommandV1::SetConfig => V1_HANDLE_CONFIG_SIZE,
        };
        size as u32
    }

    /// The number of the command of v2 that it becomes.
    pub fn sent_as(self) -> u32
        ensures { result ≡ sent_as self }
    {
        match self {
            CommandV1::ChipInfo => GET_CHIPINFO,
            CommandV1::LineInfo => GET_LINEINFO,
            CommandV1::LineHandle | CommandV1::LineEvent => GET_LINE,
            CommandV1::GetValues => LINE_GET_VALUES,
            CommandV1::SetValues => LINE_SET_VALUES,
            CommandV1::SetConfig => LINE_SET_CONFIG,
        }
    }
}

/// The length in bytes of the structure of the command of that number on a file of that kind, or None where such a
/// file has no command of that number.
pub fn size_of(kind: KindV1, cmd: u32) -> Option<u32>
    ensures { result ≡ option_map size_of (command_for kind cmd) }
{
    CommandV1::of(kind, cmd).map(|command| command.size())
}

impl KindV1 {
    /// How many lines a file of this kind has; a chip's file has none of its own.
    pub fn lines(self) -> u32
        ensures { result ≡ lines_of self }
    {
        match self {
            KindV1::Chip => 0,
            KindV1::Handle(lines) => lines,
            KindV1::Event => 1,
        }
    }
}
