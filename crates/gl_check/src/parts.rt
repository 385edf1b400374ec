//! The entries that a call of the device makes.

ghost use Rattle.std.specs.Prelude.{◌≡◌};
ghost use Rattle.gl_model.specs.Step.{guard_reply};
ghost use Rattle.gl_check.specs.Seating.{port_in};
ghost use Rattle.gl_check.specs.Seats.{first_inside, is_refusal, second_of};

use crate::port::Planned;
use gl_asking::parts::{applies, first_call, in_part, last_call};
use gl_base::Errno;
use gl_model::{Call, CommandIn, DeviceCall, Part, Reply, is_driver_asked};

/// The first entry's call of a call of the device that its guard let in.
pub fn first_inside(call: &DeviceCall) -> Call
    ensures { result ≡ first_inside call.now }
{
    match call {
        DeviceCall::Once(call) => *call,
        DeviceCall::Removing(removal) => first_call(removal),
        DeviceCall::Commanding(command) => first_part(command),
    }
}

/// The ask of a command for which the driver is asked; else the command is whole.
fn first_part(command: &CommandIn) -> Call
    ensures { result ≡ first_inside (DeviceCall.Commanding command.now) }
{
    if is_driver_asked(command) {
        in_part(command, Part::Ask)
    } else {
        in_part(command, Part::Whole)
    }
}

/// The second entry's call after a first one that begins: a removal's last call, or the tell of what a planned driver answers.
pub fn second_of(first: &Call, port: &Planned) -> Call
    ensures { result ≡ second_of first.now (port_in port.now) }
{
    match *first {
        Call::Ioctl {
            place,
            fd,
            cmd,
            len,
            bytes,
            ..
        } => Call::Ioctl {
            place,
            fd,
            cmd,
            len,
            bytes,
            part: Part::Tell(port.next_answer(applies(cmd))),
        },
        _ => last_call(first),
    }
}

/// The entry of this call records a closed guard.
pub fn is_refusal(call: &Call) -> bool
    ensures { result ≡ is_refusal call.now }
{
    match *call {
        Call::Refused { .. } => true,
        _ => false,
    }
}

/// What a call is answered at a closed guard.
pub fn guard_reply(poll: bool) -> Reply
    ensures { result ≡ guard_reply poll }
{
    if poll {
        Reply::Ready(6)
    } else {
        Reply::Refused(Errno::NoDev)
    }
}
