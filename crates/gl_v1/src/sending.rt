//! Calls of the first uAPI as calls of v2.

ghost use Rattle.std.specs.Prelude.{◌≡◌, ◌+◌, ◌≤◌, length};
ghost use Rattle.gl_uapi.specs.Fields.{overwritten};
ghost use Rattle.gl_uapi.specs.LineValues.{values_bytes};
ghost use Rattle.gl_uapi.specs.NewRequest.{new_config_bytes};
ghost use Rattle.gl_v1.specs.declared.commands.CommandV1.TheVariants.{SetConfig};
ghost use Rattle.gl_v1.specs.Commands.{sent_as, size_of};
ghost use Rattle.gl_v1.specs.Flags.{event_word};
ghost use Rattle.gl_v1.specs.To.{blank, event_request, handle_request, in_front, output_values, request_bytes, sent_for, sent_size, structure_of, to, whole, without_bytes};

use crate::commands::{CommandV1, KindV1};
use crate::flags::{EVENT_TABLE, HANDLE_TABLE, newer_word};
use crate::layout::{
    V1_CHIP_INFO_SIZE, V1_CONFIG_FLAGS, V1_CONFIG_VALUES, V1_EVENT_CONSUMER, V1_EVENT_FLAGS,
    V1_EVENT_HANDLE_FLAGS, V1_EVENT_OFFSET, V1_EVENT_REQUEST_SIZE, V1_HANDLE_CONFIG_SIZE,
    V1_HANDLE_CONSUMER, V1_HANDLE_FLAGS, V1_HANDLE_LINES, V1_HANDLE_OFFSETS,
    V1_HANDLE_OFFSETS_SIZE, V1_HANDLE_REQUEST_SIZE, V1_HANDLE_VALUES, V1_INFO_OFFSET,
    V1_VALUES_SIZE,
};
use crate::values::{bits_below, bits_of};
use gl_base::flag::INPUT;
use gl_uapi::fields::{bytes_at, put_bytes, put_u32, u32_at};
use gl_uapi::layout::{
    CHIP_INFO_SIZE, INFO_OFFSET, LINE_CONFIG_SIZE, LINE_INFO_SIZE, LINE_REQUEST_SIZE,
    LINE_VALUES_SIZE, NAME_SIZE, REQUEST_CONFIG, REQUEST_CONSUMER, REQUEST_NUM_LINES,
    REQUEST_OFFSET_SIZE, REQUEST_OFFSETS,
};
use gl_uapi::{AttributeValue, NewAttribute, write_config, write_values};

/// A call of v2: a command, the length of its buffer, and the buffer's first bytes.
#[derive(Clone, Copy, PartialEq, Eq)]
pub struct Sent {
    /// The command's number; 0 is no command.
    pub cmd: u32,
    /// The length of the buffer in bytes.
    pub len: u32,
    /// The bytes of the buffer, and zeros behind them.
    pub bytes: [u8; 592],
}

/// The call of v2 that a call of the first uAPI becomes, on a file of that kind: the command of that number with
/// these bytes. A number that such a file has no command of becomes command 0 without bytes, which v2 answers with
/// EINVAL; a buffer below the structure's length becomes the command without bytes, which v2 answers with EFAULT; and
/// a flag that the first uAPI doesn't have becomes one that v2 doesn't have, which it answers with EINVAL.
pub fn send(kind: KindV1, cmd: u32, buf: &[u8]) -> Sent
    ensures { result ≡ to kind cmd buf.now }
{
    match CommandV1::of(kind, cmd) {
        None => without_bytes(0),
        Some(command) => sent_for(command, kind.lines(), buf),
    }
}

/// A command without bytes.
#[tactic(auto, unfolding(gl_uapi::specs::Fields::zeros))]
fn without_bytes(cmd: u32) -> Sent
    ensures { result ≡ without_bytes cmd }
{
    Sent {
        cmd,
        len: 0,
        bytes: [0; LINE_REQUEST_SIZE],
    }
}

/// A command with these bytes, on a file of so many lines.
fn sent_for(command: CommandV1, lines: u32, buf: &[u8]) -> Sent
    ensures { result ≡ sent_for command lines buf.now }
{
    if buf.len() < command.size() as usize {
        without_bytes(command.sent_as())
    } else {
        whole(command, lines, buf)
    }
}

/// A command whose structure is there.
fn whole(command: CommandV1, lines: u32, buf: &[u8]) -> Sent
    requires { size_of command ≤ length buf.now }
    ensures { result ≡ whole command lines buf.now }
{
    Sent {
        cmd: command.sent_as(),
        len: sent_size(command),
        bytes: structure_of(command, lines, buf),
    }
}

/// The length in bytes of the structure of v2.
fn sent_size(command: CommandV1) -> u32
    ensures { result ≡ sent_size command }
{
    let size = match command {
        CommandV1::ChipInfo => CHIP_INFO_SIZE,
        CommandV1::LineInfo => LINE_INFO_SIZE,
        CommandV1::LineHandle | CommandV1::LineEvent => LINE_REQUEST_SIZE,
        CommandV1::GetValues | CommandV1::SetValues => LINE_VALUES_SIZE,
        CommandV1::SetConfig => LINE_CONFIG_SIZE,
    };
    size as u32
}

/// The structure of v2, and zeros behind it.
fn structure_of(command: CommandV1, lines: u32, buf: &[u8]) -> [u8; LINE_REQUEST_SIZE]
    requires { size_of command ≤ length buf.now }
    ensures { result ≡ structure_of command lines buf.now }
{
    match command {
        CommandV1::ChipInfo => piece_at(0, bytes_at(buf, 0, V1_CHIP_INFO_SIZE)),
        CommandV1::LineInfo => piece_at(INFO_OFFSET, bytes_at(buf, V1_INFO_OFFSET, 4)),
        CommandV1::LineHandle => handle_request(buf),
        CommandV1::LineEvent => event_request(buf),
        CommandV1::GetValues => values(0, bits_below(lines)),
        CommandV1::SetValues => values(
            bits_of(bytes_at(buf, 0, V1_VALUES_SIZE)),
            bits_below(lines),
        ),
        CommandV1::SetConfig => new_config(buf, lines),
    }
}

/// A piece over zeros.
#[tactic(auto, unfolding(gl_uapi::specs::Fields::zeros))]
fn piece_at(offset: usize, piece: &[u8]) -> [u8; LINE_REQUEST_SIZE]
    requires { offset + length piece.now ≤ LINE_REQUEST_SIZE }
    ensures { result ≡ overwritten offset piece.now blank }
{
    let mut out = [0; LINE_REQUEST_SIZE];
    put_bytes(&mut out, offset, piece);
    out
}

/// Values, and zeros behind them.
#[tactic(auto, unfolding(gl_uapi::specs::Fields::zeros))]
fn values(bits: u64, mask: u64) -> [u8; LINE_REQUEST_SIZE]
    ensures { result ≡ in_front (values_bytes bits mask) LINE_VALUES_SIZE }
{
    let mut out = [0; LINE_REQUEST_SIZE];
    write_values(&mut out, bits, mask);
    out
}

/// A handle's new configuration, and zeros behind it.
#[tactic(auto, unfolding(gl_uapi::specs::Fields::zeros))]
fn new_config(buf: &[u8], lines: u32) -> [u8; LINE_REQUEST_SIZE]
    requires { V1_HANDLE_CONFIG_SIZE ≤ length buf.now }
    ensures { result ≡ structure_of SetConfig lines buf.now }
{
    let mut out = [0; LINE_REQUEST_SIZE];
    let flags = newer_word(&HANDLE_TABLE, u32_at(buf, V1_CONFIG_FLAGS));
    let attribute = output_values(lines, bytes_at(buf, V1_CONFIG_VALUES, V1_VALUES_SIZE));
    write_config(&mut out, flags, &[attribute]);
    out
}

/// The values that outputs get.
fn output_values(lines: u32, values: &[u8]) -> NewAttribute
    requires { length values.now ≤ 64 }
    ensures { result ≡ output_values lines values.now }
{
    NewAttribute {
        value: AttributeValue::OutputValues(bits_of(values)),
        mask: bits_below(lines),
    }
}

/// A handle's request.
fn handle_request(buf: &[u8]) -> [u8; LINE_REQUEST_SIZE]
    requires { V1_HANDLE_REQUEST_SIZE ≤ length buf.now }
    ensures { result ≡ handle_request buf.now }
{
    let lines = u32_at(buf, V1_HANDLE_LINES);
    let flags = newer_word(&HANDLE_TABLE, u32_at(buf, V1_HANDLE_FLAGS));
    let attribute = output_values(lines, bytes_at(buf, V1_HANDLE_VALUES, V1_VALUES_SIZE));
    request(
        bytes_at(buf, V1_HANDLE_OFFSETS, V1_HANDLE_OFFSETS_SIZE),
        bytes_at(buf, V1_HANDLE_CONSUMER, NAME_SIZE),
        &config(flags, &[attribute]),
        lines,
    )
}

/// A request for one line and its edges.
fn event_request(buf: &[u8]) -> [u8; LINE_REQUEST_SIZE]
    requires { V1_EVENT_REQUEST_SIZE ≤ length buf.now }
    ensures { result ≡ event_request buf.now }
{
    let flags = event_word(
        u32_at(buf, V1_EVENT_HANDLE_FLAGS),
        u32_at(buf, V1_EVENT_FLAGS),
    );
    request(
        bytes_at(buf, V1_EVENT_OFFSET, REQUEST_OFFSET_SIZE),
        bytes_at(buf, V1_EVENT_CONSUMER, NAME_SIZE),
        &config(flags, &[]),
        1,
    )
}

/// The flags of a line whose edges are events: it is always an input.
fn event_word(handle_flags: u32, event_flags: u32) -> u64
    ensures { result ≡ event_word HANDLE_TABLE EVENT_TABLE handle_flags event_flags }
{
    newer_word(&HANDLE_TABLE, handle_flags) | newer_word(&EVENT_TABLE, event_flags) | 1 << INPUT
}

/// A configuration of v2.
fn config(flags: u64, attributes: &[NewAttribute]) -> [u8; LINE_CONFIG_SIZE]
    requires { length attributes.now ≤ 10 }
    ensures { result ≡ new_config_bytes flags attributes.now }
{
    let mut out = [0; LINE_CONFIG_SIZE];
    write_config(&mut out, flags, attributes);
    out
}

/// A request of these offsets, for this consumer, with this configuration, of so many lines.
#[tactic(auto, unfolding(gl_uapi::specs::Fields::zeros))]
fn request(
    offsets: &[u8],
    consumer: &[u8],
    config: &[u8; LINE_CONFIG_SIZE],
    lines: u32,
) -> [u8; LINE_REQUEST_SIZE]
    requires offsets { length offsets.now ≤ 256 }
    requires consumer { length consumer.now ≤ NAME_SIZE }
    ensures { result ≡ request_bytes offsets.now consumer.now config.now lines }
{
    let mut out = [0; LINE_REQUEST_SIZE];
    put_bytes(&mut out, REQUEST_OFFSETS, offsets);
    put_bytes(&mut out, REQUEST_CONSUMER, consumer);
    put_bytes(&mut out, REQUEST_CONFIG, config);
    put_u32(&mut out, REQUEST_NUM_LINES, lines);
    out
}
