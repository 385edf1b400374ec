//! A command as it came, the commands by the file that they are for, and the parts of those that ask the driver.

ghost use Rattle.std.specs.Prelude.{◌≡◌, true, false, IfNone, IfSome};
ghost use Rattle.gl_model.specs.OpenFiles.{asks_driver, is_for_chips, is_whole};
ghost use Rattle.gl_core.specs.Commanded.{chip_command, command_of_kind, part_of, request_command};

use gl_model::Part;
use gl_uapi::Command;
use gl_uapi::layout::LINE_REQUEST_SIZE;

/// A command on an open file, as it came: all but its number.
#[derive(Clone, Copy)]
pub(crate) struct Commanded<'a> {
    /// The place of the file's chip.
    pub(crate) place: u8,
    /// The file's number.
    pub(crate) fd: u32,
    /// The length of the buffer.
    pub(crate) len: u32,
    /// The first bytes of the buffer, and zeros behind it.
    pub(crate) bytes: &'a [u8; LINE_REQUEST_SIZE],
    /// Which entry the command makes.
    pub(crate) part: Part,
}

/// A command on a chip file that asks no driver.
#[derive(Clone, Copy)]
pub(crate) enum ChipCommand {
    /// Asks for the information on the chip.
    ChipInfo,
    /// Asks for the information on a line.
    LineInfo,
    /// Asks for the information on a line, and watches the line from then on.
    Watch,
    /// Stops watching a line.
    Unwatch,
}

impl ChipCommand {
    /// The command that it is.
    pub(crate) fn command(self) -> Command
        ensures command { result ≡ chip_command self }
        ensures file { is_for_chips result ≡ true }
    {
        match self {
            ChipCommand::ChipInfo => Command::ChipInfo,
            ChipCommand::LineInfo => Command::LineInfo,
            ChipCommand::Watch => Command::Watch,
            ChipCommand::Unwatch => Command::Unwatch,
        }
    }
}

/// A command on a request.
#[derive(Clone, Copy)]
pub(crate) enum RequestCommand {
    /// Configures the lines anew.
    SetConfig,
    /// Asks for the values of the lines.
    GetValues,
    /// Sets the values of the lines.
    SetValues,
}

impl RequestCommand {
    /// The command that it is.
    pub(crate) fn command(self) -> Command
        ensures command { result ≡ request_command self }
        ensures file { is_for_chips result ≡ false }
        ensures driver { asks_driver result ≡ true }
    {
        match self {
            RequestCommand::SetConfig => Command::SetConfig,
            RequestCommand::GetValues => Command::GetValues,
            RequestCommand::SetValues => Command::SetValues,
        }
    }
}

/// A command, by the file that it is for.
#[derive(Clone, Copy)]
pub(crate) enum CommandKind {
    /// It is for a chip file, and asks no driver.
    OnChip(ChipCommand),
    /// It is the request of lines, for a chip file.
    OfLines,
    /// It is for a request.
    OnRequest(RequestCommand),
}

impl CommandKind {
    /// What kind of command this is.
    pub(crate) fn of(command: Command) -> CommandKind
        ensures { command ≡ command_of_kind result }
    {
        match command {
            Command::ChipInfo => CommandKind::OnChip(ChipCommand::ChipInfo),
            Command::LineInfo => CommandKind::OnChip(ChipCommand::LineInfo),
            Command::Watch => CommandKind::OnChip(ChipCommand::Watch),
            Command::Unwatch => CommandKind::OnChip(ChipCommand::Unwatch),
            Command::GetLine => CommandKind::OfLines,
            Command::SetConfig => CommandKind::OnRequest(RequestCommand::SetConfig),
            Command::GetValues => CommandKind::OnRequest(RequestCommand::GetValues),
            Command::SetValues => CommandKind::OnRequest(RequestCommand::SetValues),
        }
    }
}

/// Which entry a command makes that asks the driver.
#[derive(Clone, Copy)]
pub(crate) enum DriverPart {
    /// The first: it is asked for.
    Ask,
    /// The second: what the driver answered, a bit a line; `None` where it failed.
    Tell(Option<u64>),
}

impl DriverPart {
    /// The part of such a command; None where it is the whole.
    pub(crate) fn of(part: &Part) -> Option<DriverPart>
        ensures some { IfSome result (λ its. (part_of its ≡ part.now) × (is_whole part.now ≡ false)) }
        ensures none { IfNone result (is_whole part.now ≡ true) }
    {
        match *part {
            Part::Whole => None,
            Part::Ask => Some(DriverPart::Ask),
            Part::Tell(answer) => Some(DriverPart::Tell(answer)),
        }
    }
}
