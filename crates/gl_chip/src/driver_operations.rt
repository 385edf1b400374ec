//! What the driver is asked for a command.

ghost use Rattle.std.specs.Prelude.{◌≡◌, true, false, Some, IfSome, IfNone};
ghost use Rattle.gl_base.specs.Lines.{IsLineCount};
ghost use Rattle.gl_driver.specs.Calls.{FitsOp};
ghost use Rattle.gl_uapi.specs.Command.{command_of};
ghost use Rattle.gl_model.specs.Parts.{is_driver_asked};
ghost use Rattle.gl_asking.specs.Driving.{op_of};
ghost use Rattle.gl_chip.specs.DriverCommands.{lines_for, lines_of_op, op_brought};

use gl_attrs::settings_of;
use gl_base::Lines;
use gl_core::Gift;
use gl_driver::Op;
use gl_uapi::layout::LINE_REQUEST_SIZE;
use gl_uapi::{Command, ConfigRef, ValuesRef};

/// Sets those of the lines that the mask names.
fn op_of_values(lines: &Lines, bytes: &[u8; LINE_REQUEST_SIZE]) -> Op
    requires { IsLineCount lines.now.count }
    ensures op { op_of lines.now (Some Command.SetValues) bytes.now ≡ Some result }
    ensures fits { FitsOp result }
{
    let values = ValuesRef::of(bytes).unwrap();
    Op::Set {
        lines: *lines,
        mask: values.mask(),
        bits: values.bits(),
    }
}

/// What the driver is asked for a command on a request with these lines, where it is asked.
fn op_on_lines(
    lines: &Lines,
    command: Command,
    len: u32,
    bytes: &[u8; LINE_REQUEST_SIZE],
) -> Option<Op>
    requires { IsLineCount lines.now.count }
    ensures op { IfSome result (λ op. (is_driver_asked false len (Some command) ≡ true)
        × (op_of lines.now (Some command) bytes.now ≡ Some op) × FitsOp op) }
    ensures none { IfNone result (is_driver_asked false len (Some command) ≡ false) }
{
    if len < command.size() {
        return None;
    }
    match command {
        Command::SetConfig => Some(Op::Apply {
            lines: *lines,
            settings: settings_of(ConfigRef::of(bytes).unwrap(), lines.count),
        }),
        Command::GetValues => Some(Op::Get { lines: *lines }),
        Command::SetValues => Some(op_of_values(lines, bytes)),
        Command::ChipInfo
        | Command::LineInfo
        | Command::Watch
        | Command::Unwatch
        | Command::GetLine => None,
    }
}

/// What the driver is asked for the command of a number on a request with these lines, with a buffer of so many bytes, where it
/// is asked.
pub(crate) fn line_op(
    lines: &Lines,
    cmd: u32,
    len: u32,
    bytes: &[u8; LINE_REQUEST_SIZE],
) -> Option<Op>
    requires { IsLineCount lines.now.count }
    ensures op { IfSome result (λ op. (is_driver_asked false len (command_of cmd) ≡ true)
        × (op_of lines.now (command_of cmd) bytes.now ≡ Some op) × FitsOp op) }
    ensures none { IfNone result (is_driver_asked false len (command_of cmd) ≡ false) }
{
    match Command::of(cmd) {
        None => None,
        Some(command) => op_on_lines(lines, command, len, bytes),
    }
}

/// What the driver is asked for a request of lines, by what its ask brings: to apply the settings to the lines; nothing, where
/// the bytes alone have it refused.
pub(crate) fn request_op(gift: &Gift) -> Option<Op>
    ensures op { result ≡ op_brought gift.now.asked }
    ensures fits { IfSome result (λ op. FitsOp op) }
{
    match &gift.asked {
        None => None,
        Some(brought) => match brought {
            Err(_) => None,
            Ok(asked) => Some(Op::Apply {
                lines: *asked.lines(),
                settings: *asked.settings(),
            }),
        },
    }
}

/// The lines that an operation is on.
fn lines_of_op(op: &Op) -> &Lines
    ensures { result.now ≡ lines_of_op op.now }
{
    match op {
        Op::Get { lines } => lines,
        Op::Set { lines, .. } => lines,
        Op::Apply { lines, .. } => lines,
    }
}

/// The lines that the driver is asked for, where it is asked.
pub(crate) fn lines_for(op: &Option<Op>) -> Option<Lines>
    requires { IfSome op.now (λ op. FitsOp op) }
    ensures lines { result ≡ lines_for op.now }
    ensures counts { IfSome result (λ lines. IsLineCount lines.count) }
{
    match op {
        None => None,
        Some(op) => Some(*lines_of_op(op)),
    }
}
