//! What a target is asked for its lines of an operation.
ghost use Rattle.std.specs.Prelude.{◌≡◌, ◌<◌, ◌^◌, length, Some, IfSome};
ghost use Rattle.gl_base.specs.Lines.{IsLineCount};
ghost use Rattle.gl_base.specs.declared.command.TheConstants.{LINE_GET_VALUES, LINE_SET_CONFIG, LINE_SET_VALUES};
ghost use Rattle.gl_driver.specs.Calls.{FitsOp};
ghost use Rattle.gl_model.specs.Fits.{FitsBytes};
ghost use Rattle.gl_uapi.specs.LineValues.{values_bytes};
ghost use Rattle.gl_uapi.specs.declared.layout.TheConstants.{LINE_CONFIG_SIZE, LINE_VALUES_SIZE};
ghost use Rattle.gl_uapi.specs.NewRequest.{new_config_bytes};
ghost use Rattle.gl_uapi.specs.Command.{command_of};
ghost use Rattle.gl_uapi.specs.declared.commands.Command.TheVariants.{GetValues, SetConfig, SetValues};
ghost use Rattle.gl_asking.specs.Driving.{op_of};
ghost use Rattle.gl_aggregator.specs.Commands.{config_to, mask_of, on_target, values_to, visit_by, visit_if, visit_on};
ghost use Rattle.gl_aggregator.specs.Routes.{IsRoute, lines_on};
ghost use Rattle.gl_aggregator.specs.Visiting.{Gets, IsAsking, visit_in, visit_in_some};

use crate::flag_words::{Attributes, attributes_for, flag_words};
use crate::routes::Route;
use crate::words::{Choice, word_to};
use gl_asking::handed_in;
use gl_attrs::settings_of;
use gl_base::command::{LINE_GET_VALUES, LINE_SET_CONFIG, LINE_SET_VALUES};
use gl_base::{Lines, Op};
use gl_driver::Target;
use gl_model::CommandIn;
use gl_uapi::layout::{ATTRIBUTES_MAX, LINE_CONFIG_SIZE, LINE_REQUEST_SIZE, LINE_VALUES_SIZE};
use gl_uapi::{ConfigRef, ValuesRef, write_config, write_values};

/// The command by which a target is asked, and what the driver behind is asked for it.
#[derive(Clone, Copy)]
pub(crate) struct Asking {
    /// The command, on the target's request.
    pub(crate) command: CommandIn,
    /// The operation on the target's lines.
    pub(crate) op: Op,
}

/// The command of a number on a target's request, with this structure.
#[tactic(auto, using(gl_asking::proofs::HandedBytes::handed_fits))]
fn on_target(target: &Target, cmd: u32, bytes: &[u8]) -> CommandIn
    requires { length bytes.now < 2 ^ 32 }
    ensures command { result ≡ on_target target.now cmd bytes.now }
    ensures len { result.len ≡ length bytes.now }
    ensures fits { FitsBytes result.len result.bytes }
{
    CommandIn {
        place: target.place,
        fd: target.fd,
        of_chip: false,
        cmd,
        len: bytes.len() as u32,
        bytes: handed_in(bytes),
    }
}

/// A command with values of lines.
fn values_command(target: &Target, cmd: u32, bits: u64, mask: u64) -> CommandIn
    ensures command { result ≡ on_target target.now cmd (values_bytes bits mask) }
    ensures len { result.len ≡ LINE_VALUES_SIZE }
    ensures fits { FitsBytes result.len result.bytes }
{
    let mut bytes = [0; LINE_VALUES_SIZE];
    write_values(&mut bytes, bits, mask);
    on_target(target, cmd, &bytes)
}

/// A command with a configuration of lines.
fn config_command(target: &Target, attributes: &Attributes) -> CommandIn
    ensures command { result ≡ on_target target.now LINE_SET_CONFIG (new_config_bytes 0 attributes.now) }
    ensures len { result.len ≡ LINE_CONFIG_SIZE }
    ensures fits { FitsBytes result.len result.bytes }
{
    let mut bytes = [0; LINE_CONFIG_SIZE];
    write_config(&mut bytes, 0, attributes.rows());
    on_target(target, LINE_SET_CONFIG, &bytes)
}

/// What the driver behind is asked for a SET_VALUES with these bytes.
fn set_by(lines: &Lines, bytes: &[u8; LINE_REQUEST_SIZE]) -> Op
    requires { IsLineCount lines.now.count }
    ensures op { op_of lines.now (Some SetValues) bytes.now ≡ Some result }
    ensures fits { FitsOp result }
{
    let values = ValuesRef::of(bytes).unwrap();
    Op::Set {
        lines: *lines,
        mask: values.mask(),
        bits: values.bits(),
    }
}

/// What the driver behind is asked for a SET_CONFIG with these bytes.
fn apply_by(lines: &Lines, bytes: &[u8; LINE_REQUEST_SIZE]) -> Op
    requires { IsLineCount lines.now.count }
    ensures op { op_of lines.now (Some SetConfig) bytes.now ≡ Some result }
    ensures fits { FitsOp result }
{
    Op::Apply {
        lines: *lines,
        settings: settings_of(ConfigRef::of(bytes).unwrap(), lines.count),
    }
}

/// How a target is asked for the values of its lines.
fn getting(op: &Op, route: &Route) -> Asking
    requires op { FitsOp op.now }
    requires route { IsRoute route.now }
    ensures visit { visit_in result ≡ visit_by route.now.target.lines
        (on_target route.now.target LINE_GET_VALUES (values_bytes 0 (mask_of (lines_on op.now route.now)))) }
    ensures fits { IsAsking route.now.target.place result }
    ensures gets { command_of result.command.cmd ≡ Some GetValues }
{
    Asking {
        command: values_command(
            &route.target,
            LINE_GET_VALUES,
            0,
            word_to(op, route, Choice::All),
        ),
        op: Op::Get {
            lines: route.target.lines,
        },
    }
}

/// How its lines are given values.
fn setting(op: &Op, route: &Route) -> Asking
    requires op { FitsOp op.now }
    requires route { IsRoute route.now }
    ensures visit { visit_in result ≡ visit_by route.now.target.lines
        (on_target route.now.target LINE_SET_VALUES (values_bytes (values_to op.now (lines_on op.now route.now)) (mask_of (lines_on op.now route.now)))) }
    ensures fits { IsAsking route.now.target.place result }
{
    let mask = word_to(op, route, Choice::All);
    let command = values_command(
        &route.target,
        LINE_SET_VALUES,
        word_to(op, route, Choice::High),
        mask,
    );
    Asking {
        command,
        op: set_by(&route.target.lines, &command.bytes),
    }
}

/// How its lines are configured, where there is room for as many attributes.
fn applying(op: &Op, route: &Route) -> Option<Asking>
    requires op { FitsOp op.now }
    requires route { IsRoute route.now }
    ensures visit { visit_in_some result ≡ visit_if route.now.target.lines (config_to route.now.target op.now (lines_on op.now route.now)) }
    ensures fits { IfSome result (λ asking. IsAsking route.now.target.place asking) }
{
    let words = flag_words(op, route);
    if words.words().len() >= ATTRIBUTES_MAX as usize {
        return None;
    }
    let command = config_command(&route.target, &attributes_for(op, route, &words));
    Some(Asking {
        command,
        op: apply_by(&route.target.lines, &command.bytes),
    })
}

/// How a target is asked for its lines of an operation, if it can be.
pub(crate) fn asking_on(op: &Op, route: &Route) -> Option<Asking>
    requires op { FitsOp op.now }
    requires route { IsRoute route.now }
    ensures visit { visit_in_some result ≡ visit_on op.now route.now }
    ensures fits { IfSome result (λ asking. IsAsking route.now.target.place asking) }
    ensures gets { IfSome result (Gets op.now) }
{
    match op {
        Op::Get { .. } => Some(getting(op, route)),
        Op::Set { .. } => Some(setting(op, route)),
        Op::Apply { .. } => applying(op, route),
    }
}
