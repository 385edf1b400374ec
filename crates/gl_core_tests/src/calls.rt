//! Calls as lines. A word that is no number is read as 0.

use crate::verbs::{Verb, verb_of};
use crate::words::Words;
use gl_base::{Errno, IrqDo, Kind, PinDo};
use gl_core::{Call, Part};
use std::alloc::Global;

/// The bytes of a command; they are 0 behind those that the line has.
pub fn read_bytes(words: Words<'_>, alloc: Global) -> Result<[u8; 592], Errno> {
    let mut given = Vec::new(alloc);
    let first = if words.is(6, b"told") { 8 } else { 7 };
    words.put_bytes(first, &mut given)?;
    Ok(padded(&given))
}

/// Bytes, and zeros behind them.
fn padded(given: &[u8]) -> [u8; 592] {
    let mut bytes = [0; 592];
    let count = given.len().min(592);
    bytes[..count].copy_from_slice(&given[..count]);
    bytes
}

/// The call that the words of a line say, if they say one. These are its bytes if it is a command.
pub fn read_call(words: Words<'_>, bytes: &[u8; 592]) -> Option<Call> {
    match verb_of(words.word(1)) {
        Some(verb) => Some(call_of(verb, words, bytes)),
        None => None,
    }
}

/// The call of a verb.
fn call_of(verb: Verb, words: Words<'_>, bytes: &[u8; 592]) -> Call {
    let (place, path, name) = (words.byte(2), words.path(2), words.name(2));
    let (fd, offset, len) = (words.word32(3), words.word32(3), words.word32(4));
    match verb {
        Verb::Probe => Call::Probe {
            label: name,
            lines: words.word32(3),
            kind: kind_of(words.is(4, b"sim")),
        },
        Verb::Unplug => Call::Unplug {
            place,
            last: words.is(3, b"finish"),
        },
        Verb::MakeDir => Call::MakeDir { path },
        Verb::RemoveDir => Call::RemoveDir { path },
        Verb::Write => Call::Write {
            path,
            value: words.name(3),
        },
        Verb::Read => Call::Read { path },
        Verb::Live => Call::Live { device: name },
        Verb::Remove => Call::Remove {
            device: name,
            last: words.is(3, b"finish"),
        },
        Verb::Tick => Call::Tick {
            mono: words.number(2),
            real: words.number(3),
        },
        Verb::Pin => Call::Pin {
            place,
            what: read_pin(words),
        },
        Verb::Irq => Call::Irq {
            place,
            offset,
            what: read_irq(words),
        },
        Verb::Pull => Call::Pull {
            place,
            offset,
            up: words.is(4, b"up"),
        },
        Verb::Level => Call::Level {
            place,
            offset,
            pull: words.is(4, b"pull"),
        },
        Verb::Interrupt => Call::Interrupt {
            place,
            offset,
            up: words.is(4, b"up"),
        },
        Verb::OpenChip => Call::OpenChip { word: path },
        Verb::Find => Call::Find { place: None, name },
        Verb::FindAt => Call::Find {
            place: Some(place),
            name: words.name(3),
        },
        Verb::Ioctl => Call::Ioctl {
            place,
            fd,
            cmd: words.word32(4),
            len: words.word32(5),
            bytes: *bytes,
            part: read_part(words),
        },
        Verb::ReadEdges => Call::ReadEdges { place, fd, len },
        Verb::ReadInfo => Call::ReadInfo { place, fd, len },
        Verb::PollLine => Call::PollLine { place, fd },
        Verb::PollChip => Call::PollChip { place, fd },
        Verb::Close => Call::Close {
            fd: words.word32(2),
        },
        Verb::Refused => Call::Refused {
            place,
            poll: words.is(3, b"poll"),
        },
    }
}

fn kind_of(is_simulated: bool) -> Kind {
    if is_simulated {
        Kind::Simulated
    } else {
        Kind::Remote
    }
}

/// `range`, `hold`, or else `drop`.
fn read_pin(words: Words<'_>) -> PinDo {
    let number = words.word32(4);
    if words.is(3, b"range") {
        PinDo::Range {
            offset: number,
            pin: words.word32(5),
            count: words.word32(6),
        }
    } else if words.is(3, b"hold") {
        PinDo::Hold(number)
    } else {
        PinDo::Release(number)
    }
}

/// `lock`, `unlock`, `enable`, `disable`, or else `never`.
fn read_irq(words: Words<'_>) -> IrqDo {
    if words.is(4, b"lock") {
        IrqDo::Lock
    } else if words.is(4, b"unlock") {
        IrqDo::Unlock
    } else if words.is(4, b"enable") {
        IrqDo::Enable
    } else if words.is(4, b"disable") {
        IrqDo::Disable
    } else {
        IrqDo::Never
    }
}

/// `whole`, `ask`, `told`, or else `failed`.
fn read_part(words: Words<'_>) -> Part {
    if words.is(6, b"whole") {
        Part::Whole
    } else if words.is(6, b"ask") {
        Part::Ask
    } else if words.is(6, b"told") {
        Part::Tell(Some(words.number(7)))
    } else {
        Part::Tell(None)
    }
}
