//! Names in fields, words of lines, bits, and what is told of operations.

ghost use Rattle.std.specs.Prelude.{◌+◌, ◌<◌, length};

use gl_base::{ByteList, Errno, Got, Lines, Name, flag, has_bit, next_word, nth_word, split_first};
use std::alloc::{AllocError, Global};

/// A name of 31 bytes.
const LONG: &[u8] = b"abcdefghijklmnopqrstuvwxyz01234";

/// Whether a name is written with its zero into a field of 32 bytes that had others.
fn is_written() -> bool {
    let name = Name::filled(LONG);
    let mut field = [7; 32];
    name.write_into(&mut field);
    (Name::read(&field), field[31]) == (name, 0)
}

/// Whether a name is read up to a zero.
fn is_read() -> bool {
    let mut field = [b'a'; 32];
    field[4] = 0;
    Name::read(&field).as_bytes() == b"aaaa".as_slice()
}

/// Whether the lines of a request are its first offsets.
fn are_lines() -> bool {
    let mut lines = Lines {
        count: 2,
        offsets: [0; 64],
    };
    lines.offsets[1] = 5;
    lines.offsets() == [0, 5].as_slice()
}

/// Whether the first word of a text stands at this place, the rest begins at that one, and the word is this.
fn is_first_word(at: usize, text: &[u8], places: (usize, usize), word: &[u8]) -> bool
    requires { at + length text.now < 1000 }
{
    match next_word(at, text) {
        Some(found) => (found.at, found.rest_at) == places && found.word == word,
        None => false,
    }
}

/// Whether names, bits and words are as they have to be, in this order.
pub fn checks() -> [bool; 12] {
    let line = b"  open  A gpiochip0 ";
    [
        is_written(),
        is_read(),
        Name::read(&[1; 32]).as_bytes().len() == 31 && Name::empty().as_bytes().is_empty(),
        has_bit(0x34, flag::INPUT) && has_bit(1 << 63, 63),
        !has_bit(0x34, flag::OUTPUT),
        are_lines(),
        is_first_word(1, line, (3, 8), b"open"),
        is_first_word(9, b"A gpiochip0 ", (9, 11), b"A"),
        nth_word(2, 1, line) == Some(b"gpiochip0".as_slice()),
        nth_word(3, 1, line).is_none() && next_word(20, b"  ").is_none(),
        split_first(b"a\n\nb", b'\n').1 == Some(b"\nb".as_slice()),
        Errno::from(AllocError) == Errno::NoMemory,
    ]
}

/// What is told of bytes that came in two pieces.
fn told(alloc: Global) -> Result<Got, Errno> {
    let mut bytes = ByteList::new(alloc);
    bytes.push_all(b"ab")?;
    bytes.push_all(b"c")?;
    Ok(Got::Bytes(ByteList::of(bytes.into_vec())))
}

/// Whether bytes, refusals and polls are told as such, in this order.
pub fn answers(alloc: Global) -> Result<[bool; 4], Errno> {
    let got = told(alloc)?;
    Ok([
        got.bytes() == b"abc".as_slice(),
        (got.refusal(), got.ready()) == (None, 0),
        Got::Refused(Errno::Busy).refusal() == Some(Errno::Busy),
        Got::Ready(6).ready() == 6,
    ])
}
