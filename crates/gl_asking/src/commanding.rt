//! A command on an open file, as it is handed in.

ghost use Rattle.std.specs.Prelude.{◌≡◌, ◌<◌, length};
ghost use Rattle.gl_model.specs.Fits.{FitsBytes};
ghost use Rattle.gl_model.specs.declared.device_call.DeviceCall.TheVariants.{Commanding};
ghost use Rattle.gl_uapi.specs.declared.layout.TheConstants.{LINE_REQUEST_SIZE};
ghost use Rattle.gl_asking.specs.Asking.{buffer_of, lines_named};
ghost use Rattle.gl_asking.specs.Fitting.{FitsDevice};
ghost use Rattle.gl_asking.specs.Handed.{command_in, handed_in};
ghost use Rattle.gl_asking.specs.Rows.{IsRow, is_chip};

use crate::kinds::{FileKind, FileRow};
use gl_base::Lines;
use gl_model::{CommandIn, lines_asked};
use gl_uapi::RequestRef;
use gl_uapi::layout::LINE_REQUEST_SIZE;

/// The bytes of a command that is called with a buffer: those of the buffer, at most as many as the longest structure has, and
/// then zeros.
pub fn handed_in(buffer: &[u8]) -> [u8; LINE_REQUEST_SIZE]
    ensures { result ≡ handed_in buffer.now }
{
    match buffer.first_chunk::<LINE_REQUEST_SIZE>() {
        Some(whole) => *whole,
        None => with_zeros(buffer),
    }
}

/// The same of a buffer that is shorter than the longest structure.
fn with_zeros(buffer: &[u8]) -> [u8; LINE_REQUEST_SIZE]
    ensures { result ≡ handed_in buffer.now }
{
    let mut bytes = [0; LINE_REQUEST_SIZE];
    let count = buffer.len().min(LINE_REQUEST_SIZE);
    bytes[..count].copy_from_slice(&buffer[..count]);
    bytes
}

/// The bytes that are handed in for a buffer of this length that begins with these bytes.
pub(crate) fn handed_of(len: u32, bytes: &[u8; LINE_REQUEST_SIZE]) -> [u8; LINE_REQUEST_SIZE]
    ensures told { result ≡ handed_in (buffer_of len bytes.now) }
    ensures fits { FitsBytes len result }
{
    let count = bytes.len().min(len as usize);
    handed_in(&bytes[..count])
}

/// The lines that the structure in a command's buffer names, in order, as many as it says. The buffer has this length, and begins with these bytes.
pub(crate) fn lines_named(len: u32, bytes: &[u8; LINE_REQUEST_SIZE]) -> Lines
    ensures { result ≡ lines_named (buffer_of len bytes.now) }
{
    let handed = handed_of(len, bytes);
    lines_asked(&RequestRef::of(&handed).unwrap())
}

/// The row is a chip's.
pub(crate) fn is_chip(row: &FileRow) -> bool
    ensures { result ≡ is_chip row.now.kind }
{
    matches!(row.kind, FileKind::Chip)
}

/// The command of a number on an open file, with a buffer of this length that begins with these bytes.
pub(crate) fn command_on(
    row: &FileRow,
    cmd: u32,
    len: u32,
    bytes: &[u8; LINE_REQUEST_SIZE],
) -> CommandIn
    requires { IsRow row.now }
    ensures fits { FitsDevice (Commanding result) }
    ensures told { result ≡ command_in row.now.place row.now.fd (is_chip row.now.kind) cmd (buffer_of len bytes.now) }
{
    CommandIn {
        place: row.place,
        fd: row.fd,
        of_chip: is_chip(row),
        cmd,
        len,
        bytes: handed_of(len, bytes),
    }
}
