//! What a client gets of an operation, by what its reply comes to.

ghost use Rattle.std.specs.Prelude.{◌≡◌, ℕ, List, take};
ghost use Rattle.gl_base.specs.declared.operation.Got.TheVariants.{Done, Number, Text, Ready, Bytes};
ghost use Rattle.gl_uapi.specs.declared.layout.TheConstants.{LINE_REQUEST_SIZE};
ghost use Rattle.gl_asking.specs.Asking.{got_by, got_of, found_got, level_got};
ghost use Rattle.gl_asking.specs.Changes.{IsFilled};
ghost use Rattle.gl_asking.specs.Results.{done_of, found_of, level_of, number_of, ready_of, text_of};

use crate::results;
use gl_base::{ByteList, Do, Got};
use gl_model::Reply;
use gl_uapi::layout::LINE_REQUEST_SIZE;

/// A number, or that the call was refused.
fn number(reply: Reply) -> Got
    ensures { result ≡ got_by Number (number_of reply) }
{
    match results::number(reply) {
        Ok(number) => Got::Number(number),
        Err(errno) => Got::Refused(errno),
    }
}

/// A level, 0 or 1, or that the call was refused.
fn level(reply: Reply) -> Got
    ensures { result ≡ got_by level_got (level_of reply) }
{
    match results::level(reply) {
        Ok(up) => Got::Number(up as u64),
        Err(errno) => Got::Refused(errno),
    }
}

/// A text, or that the call was refused.
fn text(reply: Reply) -> Got
    ensures { result ≡ got_by Text (text_of reply) }
{
    match results::text(reply) {
        Ok(text) => Got::Text(text),
        Err(errno) => Got::Refused(errno),
    }
}

/// What a file is ready for, or that the poll was refused.
fn ready(reply: Reply) -> Got
    ensures { result ≡ got_by Ready (ready_of reply) }
{
    match results::ready(reply) {
        Ok(bits) => Got::Ready(bits),
        Err(errno) => Got::Refused(errno),
    }
}

/// The first line that was found, and how many there are; or that the call was refused.
fn found(reply: Reply) -> Got
    ensures { result ≡ got_by found_got (found_of reply) }
{
    match results::found(reply) {
        Ok((place, offset, count)) => Got::Found {
            place,
            offset,
            count,
        },
        Err(errno) => Got::Refused(errno),
    }
}

/// The first bytes of a command's buffer, at most as many as the longest structure has, or that the command was refused.
fn filled(reply: Reply, buffer: Vec<u8>) -> Got
    ensures { result ≡ got_by (λ _. Bytes (take LINE_REQUEST_SIZE buffer.items)) (done_of reply) }
{
    let mut buffer = buffer;
    match results::done(reply) {
        Ok(()) => {
            buffer.truncate(LINE_REQUEST_SIZE);
            Got::Bytes(ByteList::of(buffer))
        }
        Err(errno) => Got::Refused(errno),
    }
}

/// The bytes that were read, or that the read was refused.
fn read(reply: Reply, buffer: Vec<u8>) -> Got
    ensures { result ≡ got_by (λ count. Bytes (take count buffer.items)) (number_of reply) }
{
    let mut buffer = buffer;
    match results::number(reply) {
        Ok(count) => {
            buffer.truncate(count as usize);
            Got::Bytes(ByteList::of(buffer))
        }
        Err(errno) => Got::Refused(errno),
    }
}

/// That it was done, or that the call was refused.
fn done(reply: Reply) -> Got
    ensures { result ≡ got_by (λ _. Done) (done_of reply) }
{
    match results::done(reply) {
        Ok(()) => Got::Done,
        Err(errno) => Got::Refused(errno),
    }
}

/// What a client gets of an operation, by the machine's reply and the buffer after the call. Only commands and reads have one.
pub fn got_of(what: &Do, reply: &Reply, buffer: Vec<u8>) -> Got
    ensures { (wrote : List ℕ) → IsFilled what.now wrote buffer.items → result ≡ got_of what.now reply.now wrote }
{
    let reply = *reply;
    match what {
        Do::Probe { .. } | Do::OpenChip { .. } => number(reply),
        Do::Read(_) => text(reply),
        Do::Level { .. } => level(reply),
        Do::Find { .. } => found(reply),
        Do::Ioctl { .. } => filled(reply, buffer),
        Do::ReadFile { .. } => read(reply, buffer),
        Do::Poll { .. } => ready(reply),
        _ => done(reply),
    }
}
