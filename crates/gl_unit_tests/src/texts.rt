//! Names, paths, numbers and words as texts.

use gl_base::{
    Errno, Name, Path, are_label_bytes, chip_name, chip_number, command_number, piece_size,
    put_bytes, put_decimal, put_repeated, put_right_justified, put_seconds, read_decimal,
    read_plain_decimal,
};

/// Appends what a text is as one of this kind, `none` where it is none.
pub fn put(kind: &[u8], text: &[u8], out: &mut Vec<u8>) -> Result<(), Errno> {
    match kind {
        b"name" => put_name(text, out),
        b"path" => put_path(text, out),
        b"label" => put_word(
            if are_label_bytes(text) {
                b"label"
            } else {
                b"none"
            },
            out,
        ),
        b"bytes" => put_bytes(text, out),
        _ => put_number(number_of(kind, text), out),
    }
}

/// Appends the bytes of a text that is a name.
fn put_name(text: &[u8], out: &mut Vec<u8>) -> Result<(), Errno> {
    match Name::of(text) {
        Some(name) => put_word(name.as_bytes(), out),
        None => put_word(b"none", out),
    }
}

/// Appends the bytes of a text that is a path.
fn put_path(text: &[u8], out: &mut Vec<u8>) -> Result<(), Errno> {
    match Path::of(text) {
        Some(path) => put_word(path.as_bytes(), out),
        None => put_word(b"none", out),
    }
}

/// The number that a text is as one of this kind.
fn number_of(kind: &[u8], text: &[u8]) -> Option<u64> {
    match kind {
        b"decimal" => read_decimal(text),
        b"plain" => read_plain_decimal(text),
        b"chip" => chip_number(text),
        b"piece" => piece_size(text),
        b"command" => match command_number(text) {
            Some(number) => Some(u64::from(number)),
            None => None,
        },
        _ => None,
    }
}

/// Appends a number, where there is one.
fn put_number(number: Option<u64>, out: &mut Vec<u8>) -> Result<(), Errno> {
    match number {
        Some(number) => put_decimal(number, out),
        None => put_word(b"none", out),
    }
}

/// Appends a word.
pub fn put_word(word: &[u8], out: &mut Vec<u8>) -> Result<(), Errno> {
    out.extend_from_slice(word)?;
    Ok(())
}

/// Each error. `FULL` is this project's own.
const ERRORS: [Errno; 16] = [
    Errno::Perm,
    Errno::NoEnt,
    Errno::Io,
    Errno::NxIo,
    Errno::BadF,
    Errno::Again,
    Errno::NoMemory,
    Errno::Fault,
    Errno::Busy,
    Errno::Exist,
    Errno::NoDev,
    Errno::Inval,
    Errno::MFile,
    Errno::NoSpc,
    Errno::OpNotSupp,
    Errno::Full,
];

/// Appends the number and the name of each error.
pub fn put_errors(out: &mut Vec<u8>) -> Result<(), Errno> {
    for errno in &ERRORS {
        put_error(*errno, out)?;
    }
    Ok(())
}

/// Appends the number and the name of an error, and a blank.
fn put_error(errno: Errno, out: &mut Vec<u8>) -> Result<(), Errno> {
    put_decimal(u64::from(errno.number()), out)?;
    put_word(b" ", out)?;
    put_word(errno.name().as_bytes(), out)?;
    put_word(b" ", out)
}

/// Appends two numbers, two times, two numbers in columns of three, a byte twice, and the name of chip 12.
pub fn put_numbers(out: &mut Vec<u8>) -> Result<(), Errno> {
    put_decimal(u64::MAX, out)?;
    put_decimal(0, out)?;
    put_word(b" ", out)?;
    put_seconds(1_500_000_000, out)?;
    put_seconds(7, out)?;
    put_columns(out)?;
    put_word(chip_name(12).as_bytes(), out)
}

/// Appends two numbers in columns of three, and a byte twice.
fn put_columns(out: &mut Vec<u8>) -> Result<(), Errno> {
    put_right_justified(3, b' ', 7, out)?;
    put_right_justified(3, b' ', 1234, out)?;
    put_repeated(2, b'-', out)
}
