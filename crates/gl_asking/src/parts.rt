//! The calls of the machine that a call of the device is made of.

ghost use Rattle.std.specs.Prelude.{◌≡◌};
ghost use Rattle.gl_asking.specs.Driving.{applies};
ghost use Rattle.gl_asking.specs.Fitting.{FitsDevice};
ghost use Rattle.gl_model.specs.Entries.{last_call};
ghost use Rattle.gl_model.specs.Fits.{FitsCall};
ghost use Rattle.gl_model.specs.Parts.{first_call, is_poll};
ghost use Rattle.gl_model.specs.declared.call.Call.TheVariants.{Ioctl};
ghost use Rattle.gl_model.specs.declared.device_call.DeviceCall.TheVariants.{Commanding, Once, Removing};
ghost use Rattle.gl_uapi.specs.Command.{command_of};

use gl_model::{Call, CommandIn, Part, RemovalOf};
use gl_uapi::Command;

/// The first call of a removal.
pub fn first_call(removal: &RemovalOf) -> Call
    ensures first { result ≡ first_call removal.now }
    ensures fits { FitsDevice (Removing removal.now) → FitsCall result }
{
    match removal {
        RemovalOf::OfChip(place) => Call::Unplug {
            place: *place,
            last: false,
        },
        RemovalOf::OfDevice(device) => Call::Remove {
            device: *device,
            last: false,
        },
    }
}

/// The last call of a removal, by its first one.
pub fn last_call(first: &Call) -> Call
    ensures last { result ≡ last_call first.now }
    ensures fits { FitsCall first.now → FitsCall result }
{
    match *first {
        Call::Unplug { place, .. } => Call::Unplug { place, last: true },
        Call::Remove { device, .. } => Call::Remove { device, last: true },
        call => call,
    }
}

/// The call of a command in one of its parts.
pub fn in_part(command: &CommandIn, part: Part) -> Call
    ensures part { result ≡ Ioctl command.now.place command.now.fd command.now.cmd command.now.len command.now.bytes part }
    ensures fits { FitsDevice (Commanding command.now) → FitsCall result }
{
    Call::Ioctl {
        place: command.place,
        fd: command.fd,
        cmd: command.cmd,
        len: command.len,
        bytes: command.bytes,
        part,
    }
}

/// The driver configures lines for the command of this number.
pub fn applies(cmd: u32) -> bool
    ensures { result ≡ applies (command_of cmd) }
{
    match Command::of(cmd) {
        Some(Command::GetLine | Command::SetConfig) => true,
        Some(
            Command::ChipInfo
            | Command::LineInfo
            | Command::Watch
            | Command::Unwatch
            | Command::GetValues
            | Command::SetValues,
        )
        | None => false,
    }
}

/// Whether the call is a poll. A closed guard turns a poll away like every other call, but the answer is then 6 (an error and a
/// hang-up) and no refusal.
pub fn is_poll(call: &Call) -> bool
    ensures { result ≡ is_poll (Once call.now) }
{
    matches!(call, Call::PollLine { .. } | Call::PollChip { .. })
}
