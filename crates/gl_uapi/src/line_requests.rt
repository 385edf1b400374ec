//! A request for lines.

ghost use Rattle.std.specs.Prelude.{◌≡◌, ◌+◌, ◌*◌, ◌<◌, ◌≤◌, ◌↔◌, IsSome, IfSome, length, take};
ghost use Rattle.std.specs.Int.{cast_signed, cast_unsigned, w32};
ghost use Rattle.gl_uapi.specs.Fields.{is_zero_at, number_at, number_bytes, overwritten, stretch};

use crate::fields::{are_zero, bytes_at, i32_at, name_at, put_i32, put_u32, u32_at};
use crate::layout::{
    LINE_CONFIG_SIZE, LINE_REQUEST_SIZE, NAME_SIZE, REQUEST_CONFIG, REQUEST_CONSUMER,
    REQUEST_EVENT_BUFFER_SIZE, REQUEST_FD, REQUEST_NUM_LINES, REQUEST_OFFSET_SIZE, REQUEST_OFFSETS,
    REQUEST_PADDING, REQUEST_PADDING_SIZE,
};
use crate::line_configs::ConfigRef;
use gl_base::LINES_PER_REQUEST;
use std::marker::Model;

/// A request for lines (`struct gpio_v2_line_request`), 592 bytes: contracts see the bytes.
#[derive(Drop)]
pub struct RequestRef<'a> {
    bytes: &'a [u8],
}

impl<'a> Model for RequestRef<'a> {
    ghost use Rattle.std.specs.Prelude.{◌≡◌, List, ℕ, length};
    ghost use Rattle.gl_uapi.specs.declared.layout.TheConstants.{LINE_REQUEST_SIZE};

    ghost Value = { List ℕ };

    ghost view = { λ r. r.bytes.now };

    ghost invariant = { λ r. length r.bytes.now ≡ LINE_REQUEST_SIZE };
}

impl<'a> RequestRef<'a> {
    /// The view of the first 592 bytes, or None where there are fewer.
    pub fn of(bytes: &'a [u8]) -> Option<RequestRef<'a>>
        ensures long { IsSome result ↔ (LINE_REQUEST_SIZE ≤ length bytes.now) }
        ensures first { IfSome result (λ view. view ≡ take LINE_REQUEST_SIZE bytes.now) }
    {
        if bytes.len() < LINE_REQUEST_SIZE {
            return None;
        }
        let bytes = &bytes[..LINE_REQUEST_SIZE];
        Some(RequestRef { bytes })
    }

    /// The offset on the chip of the line at position `i`, 0 to 63, of the request.
    pub fn offset(&self, i: u32) -> u32
        requires { i < LINES_PER_REQUEST }
        ensures { result ≡ number_at 4 (REQUEST_OFFSETS + REQUEST_OFFSET_SIZE * i) self.now }
    {
        u32_at(
            self.bytes,
            REQUEST_OFFSETS + REQUEST_OFFSET_SIZE * i as usize,
        )
    }

    /// The name field with who asks for the lines.
    pub fn consumer(&self) -> &'a [u8; NAME_SIZE]
        ensures { result.now ≡ stretch REQUEST_CONSUMER NAME_SIZE self.now }
    {
        name_at(self.bytes, REQUEST_CONSUMER)
    }

    /// The lines' configuration.
    pub fn config(&self) -> ConfigRef<'a>
        ensures { result ≡ stretch REQUEST_CONFIG LINE_CONFIG_SIZE self.now }
    {
        ConfigRef::whole(bytes_at(self.bytes, REQUEST_CONFIG, LINE_CONFIG_SIZE))
    }

    /// How many lines are asked for, as the bytes say: any number.
    pub fn num_lines(&self) -> u32
        ensures { result ≡ number_at 4 REQUEST_NUM_LINES self.now }
    {
        u32_at(self.bytes, REQUEST_NUM_LINES)
    }

    /// How many events the request's ring is to hold, as the bytes say: 0 leaves it to the answerer.
    pub fn event_buffer_size(&self) -> u32
        ensures { result ≡ number_at 4 REQUEST_EVENT_BUFFER_SIZE self.now }
    {
        u32_at(self.bytes, REQUEST_EVENT_BUFFER_SIZE)
    }

    /// Whether all of the request's own padding is zero.
    pub fn padding_is_zero(&self) -> bool
        ensures { result ≡ is_zero_at REQUEST_PADDING REQUEST_PADDING_SIZE self.now }
    {
        are_zero(self.bytes, REQUEST_PADDING, REQUEST_PADDING_SIZE)
    }

    /// The number of the request's file, which an answer holds.
    pub fn fd(&self) -> i32
        ensures { result ≡ cast_signed w32 (number_at 4 REQUEST_FD self.now) }
    {
        i32_at(self.bytes, REQUEST_FD)
    }
}

/// Writes the number of the request's file over bytes 588 to 591, and leaves the others.
pub fn write_fd(out: &mut [u8], fd: i32)
    requires { LINE_REQUEST_SIZE ≤ length out.old }
    ensures { out.new ≡ overwritten REQUEST_FD (number_bytes 4 (cast_unsigned w32 fd)) out.old }
{
    put_i32(out, REQUEST_FD, fd);
}

/// Writes a request's answer, which is the request with the number of its file in bytes 588 to 591, as far
/// as the buffer goes.
pub fn write_request_answer(out: &mut [u8], request: &[u8; LINE_REQUEST_SIZE], fd: u32)
    requires { length out.old ≤ LINE_REQUEST_SIZE }
    ensures { out.new ≡ take (length out.old) (overwritten REQUEST_FD (number_bytes 4 fd) request.now) }
{
    let mut answer = *request;
    put_u32(&mut answer, REQUEST_FD, fd);
    out.copy_from_slice(&answer[..out.len()]);
}
