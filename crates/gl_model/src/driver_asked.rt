//! Which commands the driver is asked for.

ghost use Rattle.std.specs.Prelude.{◌≡◌};
ghost use Rattle.gl_model.specs.OpenFiles.{asks_driver, is_for_chips};
ghost use Rattle.gl_model.specs.Parts.{is_driver_asked};
ghost use Rattle.gl_uapi.specs.Command.{command_of};

use crate::device_call::CommandIn;
use gl_uapi::Command;

/// Whether a command asks the driver, and so makes two entries.
pub fn asks_driver(command: Command) -> bool
    ensures { result ≡ asks_driver command }
{
    match command {
        Command::GetLine | Command::SetConfig | Command::GetValues | Command::SetValues => true,
        Command::ChipInfo | Command::LineInfo | Command::Watch | Command::Unwatch => false,
    }
}

/// Whether a command is one of chip files.
fn is_for_chips(command: Command) -> bool
    ensures { result ≡ is_for_chips command }
{
    match command {
        Command::ChipInfo
        | Command::LineInfo
        | Command::Watch
        | Command::Unwatch
        | Command::GetLine => true,
        Command::SetConfig | Command::GetValues | Command::SetValues => false,
    }
}

/// Whether the driver is asked for a command, which is called with a buffer of so many bytes on a chip's file or on a request's.
fn is_known_asked(of_chip: bool, len: u32, command: Option<Command>) -> bool
    ensures { result ≡ is_driver_asked of_chip len command }
{
    match command {
        Some(command) => {
            asks_driver(command) && of_chip == is_for_chips(command) && command.size() <= len
        }
        None => false,
    }
}

/// Whether the driver is asked for a command: one that asks it, of its file's kind, whose structure its buffer has room for.
pub fn is_driver_asked(command: &CommandIn) -> bool
    ensures { result ≡ is_driver_asked command.now.of_chip command.now.len (command_of command.now.cmd) }
{
    is_known_asked(command.of_chip, command.len, Command::of(command.cmd))
}
