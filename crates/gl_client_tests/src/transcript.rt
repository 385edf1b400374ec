//! Operations as text, and results from text.

use gl_base::command::{GET_CHIPINFO, GET_LINE, GET_LINEINFO, GET_LINEINFO_WATCH, LINE_GET_VALUES};
use gl_base::{ByteList, Do, Errno, Got, IrqDo, Name, put_decimal, read_decimal};
use gl_uapi::{
    Changed, Event, Info, InfoRef, RequestRef, ValuesRef, write_chip_info, write_event,
    write_info_changed, write_line_info, write_values,
};
use std::alloc::Global;

/// Appends an operation as a line of text.
pub fn put_call(what: &Do, out: &mut Vec<u8>) -> Result<(), Errno> {
    put_operation(what, out)?;
    out.push(b'\n')?;
    Ok(())
}

/// Appends an operation.
fn put_operation(what: &Do, out: &mut Vec<u8>) -> Result<(), Errno> {
    match what {
        Do::OpenChip { slot, word } => {
            put_words(b"open ", *slot, out)?;
            put_texts(word.as_bytes(), b"", b"", out)
        }
        Do::Find { slot, name } => {
            put_found_at(*slot, out)?;
            put_label(b"", name, out)
        }
        Do::Ioctl {
            slot,
            cmd,
            len,
            bytes,
            made,
        } => put_command(*slot, *cmd, *len, bytes, *made, out),
        Do::ReadFile { slot, len } => {
            put_words(b"read ", *slot, out)?;
            put_number(b"", u64::from(*len), out)
        }
        Do::Poll { slot } => put_words(b"poll ", *slot, out),
        Do::Close { slot } => put_words(b"close ", *slot, out),
        _ => put_board_call(what, out),
    }
}

/// Appends where lines are looked for: on the chip of a slot, or on all.
fn put_found_at(slot: Option<u32>, out: &mut Vec<u8>) -> Result<(), Errno> {
    match slot {
        Some(slot) => put_words(b"find ", slot, out),
        None => put_texts(b"find - ", b"", b"", out),
    }
}

/// Appends the slots of requests that a chip is made of.
fn put_slots(slots: &[u32; 4], count: u32, out: &mut Vec<u8>) -> Result<(), Errno> {
    for slot in &slots[..(count as usize).min(4)] {
        out.push(b' ')?;
        put_decimal(u64::from(*slot), out)?;
    }
    Ok(())
}

/// Appends an operation on the board: its chips, its tree, its clock and its driver.
fn put_board_call(what: &Do, out: &mut Vec<u8>) -> Result<(), Errno> {
    match what {
        Do::Probe { label, lines } => {
            put_label(b"probe ", label, out)?;
            put_number(b" ", u64::from(*lines), out)
        }
        Do::MakeDir(path) => put_texts(b"mkdir ", path.as_bytes(), b"", out),
        Do::RemoveDir(path) => put_texts(b"rmdir ", path.as_bytes(), b"", out),
        Do::Write { path, value } => {
            put_texts(b"write ", path.as_bytes(), b" ", out)?;
            put_label(b"", value, out)
        }
        Do::Read(path) => put_texts(b"tree ", path.as_bytes(), b"", out),
        Do::Live { device, up } => {
            put_label(b"live ", device, out)?;
            put_texts(b" ", bit_text(*up), b"", out)
        }
        Do::Aggregate {
            label,
            slots,
            count,
        } => {
            put_label(b"aggregate ", label, out)?;
            put_slots(slots, *count, out)
        }
        _ => put_setting(what, out),
    }
}

/// Appends an operation on the clock or on the driver.
fn put_setting(what: &Do, out: &mut Vec<u8>) -> Result<(), Errno> {
    match what {
        Do::Tick { mono, real } => {
            put_number(b"tick ", *mono, out)?;
            put_number(b" ", *real, out)
        }
        Do::Plan { nth } => put_number(b"plan ", u64::from(*nth), out),
        Do::Accept { bits } => put_number(b"accept ", *bits, out),
        _ => put_chip_call(what, out),
    }
}

/// Appends an operation on a chip that isn't opened.
fn put_chip_call(what: &Do, out: &mut Vec<u8>) -> Result<(), Errno> {
    match what {
        Do::Unplug { place } => put_words(b"unplug ", u32::from(*place), out),
        Do::Pin { place, .. } => put_words(b"pin ", u32::from(*place), out),
        Do::Irq {
            place,
            offset,
            what,
        } => {
            put_words(b"irq ", u32::from(*place), out)?;
            put_number(b"", u64::from(*offset), out)?;
            put_texts(irq_text(*what), b"", b"", out)
        }
        Do::Pull { place, offset, up } => {
            put_words(b"pull ", u32::from(*place), out)?;
            put_words(b"", *offset, out)?;
            put_texts(bit_text(*up), b"", b"", out)
        }
        Do::Level {
            place,
            offset,
            pull,
        } => {
            put_words(level_word(*pull), u32::from(*place), out)?;
            put_number(b"", u64::from(*offset), out)
        }
        _ => put_texts(b"another", b"", b"", out),
    }
}

fn level_word(pull: bool) -> &'static [u8] {
    if pull { b"pullof " } else { b"level " }
}

/// Appends a word and a name.
fn put_label(word: &[u8], name: &Name, out: &mut Vec<u8>) -> Result<(), Errno> {
    put_texts(word, name.as_bytes(), b"", out)
}

/// Appends a word and a number.
fn put_number(word: &[u8], number: u64, out: &mut Vec<u8>) -> Result<(), Errno> {
    out.extend_from_slice(word)?;
    put_decimal(number, out)
}

/// Appends three texts.
fn put_texts(before: &[u8], text: &[u8], behind: &[u8], out: &mut Vec<u8>) -> Result<(), Errno> {
    out.extend_from_slice(before)?;
    out.extend_from_slice(text)?;
    out.extend_from_slice(behind)?;
    Ok(())
}

fn bit_text(bit: bool) -> &'static [u8] {
    if bit { b"1" } else { b"0" }
}

fn irq_text(what: IrqDo) -> &'static [u8] {
    match what {
        IrqDo::Lock => b" lock",
        IrqDo::Unlock => b" unlock",
        IrqDo::Enable => b" enable",
        IrqDo::Disable => b" disable",
        IrqDo::Never => b" none",
    }
}

/// Appends a word, a number and a blank.
fn put_words(word: &[u8], number: u32, out: &mut Vec<u8>) -> Result<(), Errno> {
    out.extend_from_slice(word)?;
    put_decimal(u64::from(number), out)?;
    out.push(b' ')?;
    Ok(())
}

/// Appends a command with what its structure says.
fn put_command(
    slot: u32,
    cmd: u32,
    len: u32,
    bytes: &[u8],
    made: u32,
    out: &mut Vec<u8>,
) -> Result<(), Errno> {
    put_words(command_word(cmd), slot, out)?;
    put_number(b"", u64::from(len), out)?;
    match cmd {
        GET_LINE => {
            put_words(b" as ", made, out)?;
            put_request(bytes, out)
        }
        GET_LINEINFO | GET_LINEINFO_WATCH => put_line(bytes, out),
        LINE_GET_VALUES => put_mask(bytes, out),
        _ => Ok(()),
    }
}

/// Appends the line that is asked about.
fn put_line(bytes: &[u8], out: &mut Vec<u8>) -> Result<(), Errno> {
    match InfoRef::of(bytes) {
        Some(info) => put_words(b" line ", info.offset(), out),
        None => Ok(()),
    }
}

/// Appends the mask of the lines that are got.
fn put_mask(bytes: &[u8], out: &mut Vec<u8>) -> Result<(), Errno> {
    match ValuesRef::of(bytes) {
        Some(values) => put_number(b" mask ", values.mask(), out),
        None => Ok(()),
    }
}

fn command_word(cmd: u32) -> &'static [u8] {
    match cmd {
        GET_CHIPINFO => b"chipinfo ",
        GET_LINEINFO => b"lineinfo ",
        GET_LINEINFO_WATCH => b"watch ",
        GET_LINE => b"request ",
        LINE_GET_VALUES => b"values ",
        _ => b"other ",
    }
}

/// Appends a request's offsets, flags, consumer and first attribute.
fn put_request(bytes: &[u8], out: &mut Vec<u8>) -> Result<(), Errno> {
    match RequestRef::of(bytes) {
        Some(request) => {
            put_offsets(&request, out)?;
            put_config(&request, out)
        }
        None => Ok(()),
    }
}

/// Appends a request's offsets.
fn put_offsets(request: &RequestRef<'_>, out: &mut Vec<u8>) -> Result<(), Errno> {
    for i in 0..request.num_lines().min(64) {
        put_words(b"", request.offset(i), out)?;
    }
    Ok(())
}

/// Appends a request's flags, consumer and first attribute.
fn put_config(request: &RequestRef<'_>, out: &mut Vec<u8>) -> Result<(), Errno> {
    let config = request.config();
    put_number(b"flags ", config.flags(), out)?;
    put_label(b" by ", &Name::read(request.consumer()), out)?;
    if config.num_attrs() == 0 {
        return Ok(());
    }
    let attribute = config.attr(0);
    put_words(b" attribute ", attribute.id(), out)?;
    put_number(b"", attribute.value(), out)?;
    put_number(b" ", attribute.mask(), out)
}

/// What is asked, in short.
fn call_of(what: &Do) -> (&'static str, u32) {
    match what {
        Do::Probe { lines, .. } => ("probe", *lines),
        Do::Unplug { place } => ("unplug", u32::from(*place)),
        Do::MakeDir(_) => ("mkdir", 0),
        Do::RemoveDir(_) => ("rmdir", 0),
        Do::Write { .. } => ("write", 0),
        Do::Read(_) => ("read", 0),
        Do::Live { up, .. } => ("live", u32::from(*up)),
        Do::Tick { real, .. } => ("tick", (*real % 1000) as u32),
        Do::Pin { place, .. } => ("pin", u32::from(*place)),
        Do::Irq { offset, .. } => ("irq", *offset),
        Do::Pull { offset, .. } => ("pull", *offset),
        Do::Level { offset, .. } => ("level", *offset),
        Do::OpenChip { slot, .. } => ("open", *slot),
        Do::Find { .. } => ("find", 0),
        Do::Ioctl { slot, .. } => ("ioctl", *slot),
        Do::ReadFile { len, .. } => ("readfile", *len),
        Do::Poll { slot } => ("poll", *slot),
        Do::Close { slot } => ("close", *slot),
        Do::Plan { nth } => ("plan", *nth),
        Do::Accept { .. } => ("accept", 0),
        Do::Aggregate { count, .. } => ("aggregate", *count),
    }
}

/// Appends what is asked, in short.
pub fn put_short(what: &Do, out: &mut Vec<u8>) -> Result<(), Errno> {
    let (name, number) = call_of(what);
    put_texts(b"(", name.as_bytes(), b" ", out)?;
    put_number(b"", u64::from(number), out)?;
    put_texts(b")", b"", b"", out)
}

/// The results that words tell, one a word: `ok`, `number:N`, `text:VALUE`, `found:PLACE:OFFSET:COUNT`, `chip:NAME:LABEL:LINES`,
/// `line:FLAGS:PERIOD:NAME:CONSUMER`, `values:BITS`, `ready:BITS`, `event:TIME:ID:OFFSET`, `change:TIME:KIND:OFFSET:FLAGS`,
/// `bytes:N` (the bytes 0, 1, 2, 3, and again), or the name of an error. An empty text tells none.
pub fn results_of(alloc: Global, text: &[u8]) -> Result<Vec<Got>, Errno> {
    let mut results = Vec::new(alloc);
    for word in text.split(|byte| *byte == b' ') {
        if !word.is_empty() {
            results.push(result_of(alloc, word)?)?;
        }
    }
    Ok(results)
}

fn result_of(alloc: Global, word: &[u8]) -> Result<Got, Errno> {
    match plain_result_of(word) {
        Some(got) => Ok(got),
        None => match structures_of(alloc, word) {
            Ok(bytes) => Ok(Got::Bytes(bytes)),
            Err(errno) => Err(errno),
        },
    }
}

/// The result without bytes that a word tells, if it tells one.
fn plain_result_of(word: &[u8]) -> Option<Got> {
    let kind = part(word, 0);
    match kind {
        b"ok" => Some(Got::Done),
        b"found" => Some(Got::Found {
            place: byte(word, 1),
            offset: number(word, 2),
            count: number(word, 3),
        }),
        b"ready" => Some(Got::Ready(byte(word, 1))),
        b"number" => Some(Got::Number(u64::from(number(word, 1)))),
        b"text" => Some(Got::Text(name(word, 1))),
        _ => refusal_of(kind),
    }
}

/// The refusal of an error's name.
fn refusal_of(name: &[u8]) -> Option<Got> {
    match errno_of(name) {
        Some(errno) => Some(Got::Refused(errno)),
        None => None,
    }
}

/// The bytes of the structures that the pieces of a word tell.
fn structures_of(alloc: Global, word: &[u8]) -> Result<ByteList, Errno> {
    let mut bytes = ByteList::new(alloc);
    match put_structures(word, &mut bytes) {
        Ok(()) => Ok(bytes),
        Err(errno) => Err(errno),
    }
}

/// Appends the structures that the pieces of a word tell.
fn put_structures(word: &[u8], bytes: &mut ByteList) -> Result<(), Errno> {
    for piece in word.split(|byte| *byte == b'+') {
        put_structure(piece, bytes)?;
    }
    Ok(())
}

/// Appends the structure that a piece of a word tells.
fn put_structure(piece: &[u8], bytes: &mut ByteList) -> Result<(), Errno> {
    let kind = part(piece, 0);
    if kind == b"chip".as_slice() {
        let mut out = [0; 68];
        write_chip_info(&mut out, &name(piece, 1), &name(piece, 2), number(piece, 3));
        return bytes.push_all(&out);
    }
    if kind == b"line".as_slice() {
        let mut out = [0; 256];
        write_line_info(&mut out, &info(piece));
        return bytes.push_all(&out);
    }
    if kind == b"values".as_slice() {
        let mut out = [0; 16];
        write_values(&mut out, u64::from(number(piece, 1)), 0);
        return bytes.push_all(&out);
    }
    if kind == b"event".as_slice() {
        let mut out = [0; 48];
        write_event(&mut out, &event(piece));
        return bytes.push_all(&out);
    }
    if kind == b"change".as_slice() {
        let mut out = [0; 288];
        write_info_changed(&mut out, &changed(piece));
        return bytes.push_all(&out);
    }
    put_bytes(number(piece, 1), bytes)
}

/// Appends so many bytes: 0, 1, 2, 3, and again.
fn put_bytes(count: u32, bytes: &mut ByteList) -> Result<(), Errno> {
    for i in 0..count {
        bytes.push_all(&[(i % 4) as u8])?;
    }
    Ok(())
}

fn info(piece: &[u8]) -> Info {
    Info {
        name: name(piece, 3),
        consumer: name(piece, 4),
        offset: 0,
        flags: u64::from(number(piece, 1)),
        period: number(piece, 2),
    }
}

fn event(piece: &[u8]) -> Event {
    Event {
        timestamp: u64::from(number(piece, 1)),
        id: number(piece, 2),
        offset: number(piece, 3),
        seqno: 1,
        line_seqno: 1,
    }
}

fn changed(piece: &[u8]) -> Changed {
    Changed {
        info: Info {
            name: Name::empty(),
            consumer: Name::empty(),
            offset: number(piece, 3),
            flags: u64::from(number(piece, 4)),
            period: 0,
        },
        timestamp: u64::from(number(piece, 1)),
        kind: number(piece, 2),
    }
}

/// The error of that name.
fn errno_of(name: &[u8]) -> Option<Errno> {
    let errors = [
        Errno::NoEnt,
        Errno::Io,
        Errno::NxIo,
        Errno::Busy,
        Errno::NoDev,
        Errno::Inval,
        Errno::MFile,
        Errno::Again,
    ];
    for errno in errors {
        if errno.name().as_bytes() == name {
            return Some(errno);
        }
    }
    None
}

/// The part of a word at a place, where its parts are divided by `:`.
fn part(word: &[u8], place: usize) -> &[u8] {
    let mut parts = word.split(|byte| *byte == b':');
    match parts.nth(place) {
        Some(part) => part,
        None => &[],
    }
}

fn number(word: &[u8], place: usize) -> u32 {
    match read_decimal(part(word, place)) {
        Some(number) if number < 1 << 32 => number as u32,
        _ => 0,
    }
}

fn byte(word: &[u8], place: usize) -> u8 {
    (number(word, place) & 0xff) as u8
}

fn name(word: &[u8], place: usize) -> Name {
    match Name::of(part(word, place)) {
        Some(name) => name,
        None => Name::empty(),
    }
}
