//! Answers of v2 as those of the first uAPI.

ghost use Rattle.std.specs.Prelude.{◌≡◌, ◌+◌, ◌*◌, ◌<◌, ◌≤◌, ◌^◌, IfSome, IsSome, length};
ghost use Rattle.gl_uapi.specs.Fields.{overwritten};
ghost use Rattle.gl_v1.specs.Back.{back, back_of, event_back, events_back, events_in, info_back};
ghost use Rattle.gl_v1.specs.Commands.{command_for, size_of};
ghost use Rattle.gl_v1.specs.Values.{value_bytes};

use crate::commands::{CommandV1, KindV1};
use crate::flags::{INFO_TABLE, older_word};
use crate::layout::{
    V1_CHIP_INFO_SIZE, V1_DATA_ID, V1_DATA_TIMESTAMP, V1_EVENT_DATA_SIZE, V1_EVENT_FD,
    V1_HANDLE_FD, V1_INFO_CONSUMER, V1_INFO_FLAGS, V1_INFO_NAME, V1_LINE_INFO_SIZE, V1_VALUES_SIZE,
};
use crate::values::put_values;
use gl_uapi::fields::{bytes_at, put_bytes, put_u32, u64_at};
use gl_uapi::layout::{
    EVENT_ID, EVENT_TIMESTAMP, INFO_CONSUMER, INFO_FLAGS, INFO_NAME, LINE_EVENT_SIZE, NAME_SIZE,
    REQUEST_FD, VALUES_BITS,
};

/// What goes back of the bytes of v2 into the structure of a command of the first uAPI, on a file of that kind: the
/// information, the new file's number, or the values. Every other byte stays as it was.
pub fn receive(kind: KindV1, cmd: u32, got: &[u8; 592], buf: &mut [u8])
    requires command { IsSome (command_for kind cmd) }
    requires size { IfSome (command_for kind cmd) (λ command. length buf.old ≡ size_of command) }
    ensures { buf.new ≡ back kind cmd got.now buf.old }
{
    if let Some(command) = CommandV1::of(kind, cmd) {
        receive_for(command, kind.lines(), got, buf);
    }
}

/// What goes back of a command, on a file of so many lines.
fn receive_for(command: CommandV1, lines: u32, got: &[u8; 592], buf: &mut [u8])
    requires { length buf.old ≡ size_of command }
    ensures { buf.new ≡ back_of command lines got.now buf.old }
{
    match command {
        CommandV1::ChipInfo => put_bytes(buf, 0, bytes_at(got, 0, V1_CHIP_INFO_SIZE)),
        CommandV1::LineInfo => put_info(got, buf),
        CommandV1::LineHandle => put_bytes(buf, V1_HANDLE_FD, bytes_at(got, REQUEST_FD, 4)),
        CommandV1::LineEvent => put_bytes(buf, V1_EVENT_FD, bytes_at(got, REQUEST_FD, 4)),
        CommandV1::GetValues => put_values(buf, u64_at(got, VALUES_BITS), lines),
        CommandV1::SetValues | CommandV1::SetConfig => {}
    }
}

/// The information on a line: its flags, its name and who holds it.
fn put_info(got: &[u8; 592], buf: &mut [u8])
    requires { length buf.old ≡ V1_LINE_INFO_SIZE }
    ensures { buf.new ≡ info_back got.now buf.old }
{
    put_u32(
        buf,
        V1_INFO_FLAGS,
        older_word(&INFO_TABLE, u64_at(got, INFO_FLAGS)),
    );
    put_bytes(buf, V1_INFO_NAME, bytes_at(got, INFO_NAME, NAME_SIZE));
    put_bytes(
        buf,
        V1_INFO_CONSUMER,
        bytes_at(got, INFO_CONSUMER, NAME_SIZE),
    );
}

/// The whole events of v2 as events of the first uAPI, from the front on: the time and the edge of each. Every other
/// byte stays as it was. The answer is how many bytes the events have, 16 each.
pub fn events(got: &[u8], out: &mut [u8]) -> u32
    requires short { length got.now < 2 ^ 32 }
    requires room { V1_EVENT_DATA_SIZE * events_in got.now ≤ length out.old }
    ensures events { out.new ≡ events_back got.now out.old }
    ensures bytes { result ≡ V1_EVENT_DATA_SIZE * events_in got.now }
{
    let count = got.len() / LINE_EVENT_SIZE;
    for i in 0..count {
        put_event(i, got, out);
    }
    (V1_EVENT_DATA_SIZE * count) as u32
}

/// Event `i`: its time and its edge.
fn put_event(i: usize, got: &[u8], out: &mut [u8])
    requires event { LINE_EVENT_SIZE * i + LINE_EVENT_SIZE ≤ length got.now }
    requires room { V1_EVENT_DATA_SIZE * i + V1_EVENT_DATA_SIZE ≤ length out.old }
    ensures { out.new ≡ event_back i got.now out.old }
{
    let from = LINE_EVENT_SIZE * i;
    let to = V1_EVENT_DATA_SIZE * i;
    put_bytes(
        out,
        to + V1_DATA_TIMESTAMP,
        bytes_at(got, from + EVENT_TIMESTAMP, 8),
    );
    put_bytes(out, to + V1_DATA_ID, bytes_at(got, from + EVENT_ID, 4));
}
