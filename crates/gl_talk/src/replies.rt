//! What is printed of the result of an operation.
ghost use Rattle.std.specs.Prelude.{◌≡◌, ◌+◌, ◌*◌, ◌/◌, ◌<◌, ◌≤◌, ◌++◌, take, length, IfOk, OnOk, IsOkUnless, true, false, codes};
ghost use Rattle.std.specs.Fmt.{digits};
ghost use Rattle.gl_base.specs.BytesText.{bytes_text};
ghost use Rattle.gl_base.specs.Decimal.{decimal};
ghost use Rattle.gl_lines.specs.Texts.{line};
ghost use Rattle.gl_uapi.specs.Fields.{stretch};
ghost use Rattle.gl_uapi.specs.InfoChanged.{changed_in};
ghost use Rattle.gl_uapi.specs.LineEvent.{event_in};
ghost use Rattle.gl_talk.specs.Replies.{edge_line, edge_lines, edge_word, edges_text, fd_of, fd_text, info_line, info_lines, infos_text, kind_word, level_text, number_of, ready_text, size_or, structure_text, text_of};

use gl_base::{ByteList, Errno, Got, has_bit, put_bytes, put_decimal};
use gl_uapi::{ChangedRef, Command, Event, EventsRef, RequestRef};
use std::alloc::Global;

/// How many bytes the read of a statement asks for at most.
const READ_MAX: usize = 49_152;

/// How many bytes an edge has.
const EDGE_SIZE: usize = 48;

/// How many bytes a change has.
const CHANGE_SIZE: usize = 288;

/// The number of a result; 0 where it has none.
pub fn number_of(got: &Got) -> u64
    ensures { result ≡ number_of got.now }
{
    match got {
        Got::Number(number) => *number,
        Got::Done
        | Got::Found { .. }
        | Got::Text(_)
        | Got::Bytes(_)
        | Got::Ready(_)
        | Got::Refused(_) => 0,
    }
}

/// A text as a line.
pub fn line_of(alloc: Global, text: &[u8]) -> Result<ByteList, Errno>
    ensures ok { IfOk result (λ printed. printed ≡ line text.now) }
    ensures memory_alone { IsOkUnless result Errno.NoMemory }
{
    let mut printed = ByteList::new(alloc);
    printed.push_all(text)?;
    printed.push_all(b"\n")?;
    Ok(printed)
}

/// The line of a value of the tree.
pub fn value_line(alloc: Global, got: &Got) -> Result<ByteList, Errno>
    ensures ok { IfOk result (λ printed. printed ≡ line (text_of got.now)) }
    ensures memory_alone { IsOkUnless result Errno.NoMemory }
{
    match got {
        Got::Text(value) => line_of(alloc, value.as_bytes()),
        Got::Done
        | Got::Found { .. }
        | Got::Number(_)
        | Got::Bytes(_)
        | Got::Ready(_)
        | Got::Refused(_) => line_of(alloc, &[]),
    }
}

/// A line's value, or its pull.
pub fn level_text(is_pull: bool, level: u64) -> &'static [u8]
    ensures { result.now ≡ level_text is_pull level }
{
    if is_pull {
        return if level == 0 { b"pull-down" } else { b"pull-up" };
    }
    if level == 0 { b"0" } else { b"1" }
}

/// What is ready.
pub fn ready_text(bits: u8) -> &'static [u8]
    ensures { result.now ≡ ready_text bits }
{
    if bits == 0 {
        return b"-";
    }
    if has_bit(u64::from(bits), 2) {
        return b"HUP ERR";
    }
    b"IN"
}

/// The bytes of a command's structure, as a line.
pub fn structure_text(alloc: Global, command: u32, bytes: &[u8]) -> Result<ByteList, Errno>
    ensures ok { IfOk result (λ printed. printed ≡ structure_text command bytes.now) }
    ensures memory_alone { IsOkUnless result Errno.NoMemory }
{
    let mut text = Vec::new(alloc);
    put_bytes(front(size_or(Command::of(command)), bytes), &mut text)?;
    line_of(alloc, &text)
}

fn size_or(command: Option<Command>) -> usize
    ensures { result ≡ size_or command }
{
    match command {
        Some(command) => command.size() as usize,
        None => 0,
    }
}

/// The first bytes of some, so many of them.
fn front(count: usize, bytes: &[u8]) -> &[u8]
    ensures { result.now ≡ take count bytes.now }
{
    match bytes.get(..count) {
        Some(front) => front,
        None => bytes,
    }
}

/// `fd N`.
pub fn fd_text(alloc: Global, bytes: &[u8]) -> Result<ByteList, Errno>
    ensures ok { IfOk result (λ printed. printed ≡ fd_text bytes.now) }
    ensures memory_alone { IsOkUnless result Errno.NoMemory }
{
    let mut text = b"fd ".to_vec(alloc)?;
    put_decimal(u64::from(fd_of(bytes)), &mut text)?;
    line_of(alloc, &text)
}

fn fd_of(bytes: &[u8]) -> u32
    ensures { result ≡ fd_of bytes.now }
{
    match RequestRef::of(bytes) {
        Some(request) => request.fd().cast_unsigned(),
        None => 0,
    }
}

/// The edges that were read, a line each.
pub fn edges_text(alloc: Global, bytes: &[u8]) -> Result<ByteList, Errno>
    ensures ok { IfOk result (λ printed. printed ≡ edges_text bytes.now) }
    ensures memory_alone { IsOkUnless result Errno.NoMemory }
{
    let mut text = Vec::new(alloc);
    if bytes.len() <= READ_MAX {
        put_edges(bytes, &mut text)?;
    }
    Ok(ByteList::of(text))
}

fn put_edges(bytes: &[u8], text: &mut Vec<u8>) -> Result<(), Errno>
    requires { length bytes.now ≤ 49152 }
    ensures ok { OnOk result (text.new.items ≡ text.old.items ++ edge_lines bytes.now 0 (length bytes.now / 48)) }
    ensures memory_alone { IsOkUnless result Errno.NoMemory }
{
    for i in 0..bytes.len() / EDGE_SIZE {
        put_edge_at(bytes, i, text)?;
    }
    Ok(())
}

fn put_edge_at(bytes: &[u8], i: usize, text: &mut Vec<u8>) -> Result<(), Errno>
    requires long { length bytes.now ≤ 49152 }
    requires there { i < length bytes.now / 48 }
    ensures ok { OnOk result (text.new.items ≡ text.old.items ++ edge_line (event_in (stretch (48 * i) 48 bytes.now))) }
    ensures memory_alone { IsOkUnless result Errno.NoMemory }
{
    put_edge(&EventsRef::of(bytes).get(i as u32), text)
}

fn put_edge(event: &Event, text: &mut Vec<u8>) -> Result<(), Errno>
    ensures ok { OnOk result (text.new.items ≡ text.old.items ++ edge_line event.now) }
    ensures memory_alone { IsOkUnless result Errno.NoMemory }
{
    put_decimal(event.timestamp, text)?;
    text.extend_from_slice(edge_word(event.id))?;
    put_decimal(u64::from(event.offset), text)?;
    text.push(b' ')?;
    put_decimal(u64::from(event.seqno), text)?;
    text.push(b' ')?;
    put_decimal(u64::from(event.line_seqno), text)?;
    text.push(b'\n')?;
    Ok(())
}

fn edge_word(id: u32) -> &'static [u8]
    ensures { result.now ≡ edge_word id }
{
    if id == 1 { b" rising " } else { b" falling " }
}

/// The changes that were read, a line each.
pub fn infos_text(alloc: Global, bytes: &[u8]) -> Result<ByteList, Errno>
    ensures ok { IfOk result (λ printed. printed ≡ infos_text bytes.now) }
    ensures memory_alone { IsOkUnless result Errno.NoMemory }
{
    let mut text = Vec::new(alloc);
    if bytes.len() <= READ_MAX {
        put_infos(alloc, bytes, &mut text)?;
    }
    Ok(ByteList::of(text))
}

fn put_infos(alloc: Global, bytes: &[u8], text: &mut Vec<u8>) -> Result<(), Errno>
    requires { length bytes.now ≤ 49152 }
    ensures ok { OnOk result (text.new.items ≡ text.old.items ++ info_lines bytes.now 0 (length bytes.now / 288)) }
    ensures memory_alone { IsOkUnless result Errno.NoMemory }
{
    for i in 0..bytes.len() / CHANGE_SIZE {
        put_info(alloc, bytes, i, text)?;
    }
    Ok(())
}

#[tactic(auto, unfolding(gl_uapi::specs::Fields::stretch))]
fn put_info(alloc: Global, bytes: &[u8], i: usize, text: &mut Vec<u8>) -> Result<(), Errno>
    requires { i < length bytes.now / 288 }
    ensures ok { OnOk result (text.new.items ≡ text.old.items ++ info_line (changed_in (stretch (288 * i) 288 bytes.now))) }
    ensures memory_alone { IsOkUnless result Errno.NoMemory }
{
    match ChangedRef::of(&bytes[CHANGE_SIZE * i..]) {
        Some(changed) => put_change(
            alloc,
            changed.timestamp(),
            changed.kind(),
            changed.info().offset(),
            changed.info().flags(),
            text,
        ),
        None => unreachable!(),
    }
}

fn put_change(
    alloc: Global,
    timestamp: u64,
    kind: u32,
    offset: u32,
    flags: u64,
    text: &mut Vec<u8>,
) -> Result<(), Errno>
    ensures ok { OnOk result (text.new.items ≡ text.old.items ++ line (decimal timestamp ++ kind_word kind ++ decimal offset ++ codes " 0x" ++ digits 16 false flags)) }
    ensures memory_alone { IsOkUnless result Errno.NoMemory }
{
    put_decimal(timestamp, text)?;
    text.extend_from_slice(kind_word(kind))?;
    put_decimal(u64::from(offset), text)?;
    let hex = format!(in alloc; " 0x{flags:x}")?;
    text.extend_from_slice(hex.as_bytes())?;
    text.push(b'\n')?;
    Ok(())
}

fn kind_word(kind: u32) -> &'static [u8]
    ensures { result.now ≡ kind_word kind }
{
    match kind {
        1 => b" requested ",
        2 => b" released ",
        _ => b" config ",
    }
}
