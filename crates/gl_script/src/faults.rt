//! The first fault of a line's words, and what stands behind a command.
ghost use Rattle.std.specs.Prelude.{◌≡◌, ◌+◌, ◌<◌, ◌≤◌, ◌^◌, ◌&&◌, true, if◌then◌else◌, length, codes, IfOk};
ghost use Rattle.gl_base.specs.BytesText.{piece_size};
ghost use Rattle.gl_base.specs.Words.{text_at, words_at};
ghost use Rattle.gl_script.specs.Faults.{err_of, spot, is_printable, byte_fault, size_fault, more_fault, name_fault, names_fault, as_fault, piece_fault, size_of, pieces_fault, bytes_fault};
ghost use Rattle.gl_script.specs.Forms.{file_name_of};
ghost use Rattle.gl_script.specs.Left.{Finds};
ghost use Rattle.gl_script.specs.Pieces.{made_by};
ghost use Rattle.std.specs.Str.{bytes_eq};

use crate::forms::{file_name, meets};
use crate::limits::{PIECES_MAX, WORD_MAX, WORDS_MAX};
use crate::refusal::{RefusalKind, Spot};
use crate::table::Form;
use gl_base::{Name, next_word, piece_size};

/// The first byte that isn't printable.
pub fn byte_fault(at: usize, line: &[u8]) -> Option<Spot>
    requires { at + length line.now + 1 < 2 ^ 32 }
    ensures { result ≡ byte_fault at line.now }
{
    for (i, byte) in line.iter().enumerate() {
        if !is_printable(*byte) {
            return Some(spot(at + i, RefusalKind::Byte));
        }
    }
    None
}

/// Whether a byte is printable or a blank.
fn is_printable(byte: u8) -> bool
    ensures { result ≡ is_printable byte }
{
    0x20 <= byte && byte <= 0x7e
}

/// A fault at a column.
pub fn spot(column: usize, kind: RefusalKind) -> Spot
    requires { column < 2 ^ 32 }
    ensures { result ≡ spot column kind }
{
    Spot {
        column: column as u32,
        kind,
    }
}

/// The first word that is too long or one too many.
pub fn size_fault(at: usize, line: &[u8]) -> Option<Spot>
    requires { at + length line.now + 1 < 2 ^ 32 }
    ensures { result ≡ size_fault 0 (words_at at line.now) }
{
    let mut count = 0;
    let mut at = at;
    let mut rest = line;
    while let Some(found) = next_word(at, rest) {
        if count >= WORDS_MAX || found.word.len() > WORD_MAX {
            return Some(spot(found.at, RefusalKind::Limit));
        }
        count += 1;
        at = found.rest_at;
        rest = found.rest;
    }
    None
}

/// A word too many.
pub fn more_fault(at: usize, line: &[u8]) -> Option<Spot>
    requires { at + length line.now + 1 < 2 ^ 32 }
    ensures { result ≡ more_fault (words_at at line.now) }
{
    match next_word(at, line) {
        Some(found) => Some(spot(found.at, RefusalKind::Words)),
        None => None,
    }
}

/// `NAME`, and no more: the name.
fn name_read(end: usize, at: usize, line: &[u8]) -> Result<Name, Spot>
    requires long { at + length line.now + 1 < 2 ^ 32 }
    requires end { end < 2 ^ 32 }
    ensures { Finds (name_fault end (words_at at line.now)) (file_name_of (text_at 0 (words_at at line.now))) result }
{
    match next_word(at, line) {
        Some(found) => {
            if !meets(Form::FileName, found.word) {
                return Err(spot(found.at, RefusalKind::Word));
            }
            match more_fault(found.rest_at, found.rest) {
                Some(fault) => Err(fault),
                None => Ok(file_name(found.word)),
            }
        }
        None => Err(spot(end, RefusalKind::Words)),
    }
}

/// At most so many names of files.
pub fn names_fault(most: u32, at: usize, line: &[u8]) -> Option<Spot>
    requires { at + length line.now + 1 < 2 ^ 32 }
    ensures { result ≡ names_fault most (words_at at line.now) }
{
    let mut most = most;
    let mut at = at;
    let mut rest = line;
    while let Some(found) = next_word(at, rest) {
        if most == 0 {
            return Some(spot(found.at, RefusalKind::Words));
        }
        if !meets(Form::FileName, found.word) {
            return Some(spot(found.at, RefusalKind::Word));
        }
        most -= 1;
        at = found.rest_at;
        rest = found.rest;
    }
    None
}

/// `as NAME`, and no more: the name.
fn as_read(end: usize, at: usize, line: &[u8]) -> Result<Option<Name>, Spot>
    requires long { at + length line.now + 1 < 2 ^ 32 }
    requires end { end < 2 ^ 32 }
    ensures { Finds (as_fault end (words_at at line.now)) (made_by true (words_at at line.now)) result }
{
    match next_word(at, line) {
        Some(found) => {
            if found.word != b"as".as_slice() {
                return Err(spot(found.at, RefusalKind::Word));
            }
            let end = found.at + found.word.len();
            match name_read(end, found.rest_at, found.rest) {
                Ok(name) => Ok(Some(name)),
                Err(fault) => Err(fault),
            }
        }
        None => Err(spot(end, RefusalKind::Words)),
    }
}

/// One more piece, where so many bytes were said: the bytes said then, or its fault.
fn piece_fault(said: u64, at: usize, word: &[u8]) -> Result<u64, Spot>
    requires at { at < 2 ^ 32 }
    requires said { said ≤ 1024 }
    ensures fault { err_of result ≡ piece_fault said at (piece_size word.now) }
    ensures said { IfOk result (λ more. (more ≡ said + size_of (piece_size word.now)) × (more ≤ 1024)) }
{
    match piece_size(word) {
        Some(size) => {
            if size > PIECES_MAX - said {
                return Err(spot(at, RefusalKind::Limit));
            }
            Ok(said + size)
        }
        None => Err(spot(at, RefusalKind::Word)),
    }
}

/// Further pieces, and then `as NAME` exactly where a file is made: its name.
fn pieces_read(
    makes: bool,
    said: u64,
    end: usize,
    at: usize,
    line: &[u8],
) -> Result<Option<Name>, Spot>
    requires long { at + length line.now + 1 < 2 ^ 32 }
    requires end { end < 2 ^ 32 }
    requires said { said ≤ 1024 }
    ensures { Finds (pieces_fault makes said end (words_at at line.now)) (made_by makes (words_at at line.now)) result }
{
    let mut said = said;
    let mut end = end;
    let mut at = at;
    let mut rest = line;
    while let Some(found) = next_word(at, rest) {
        let next = found.at + found.word.len();
        if is_as(makes, found.word) {
            match name_read(next, found.rest_at, found.rest) {
                Ok(name) => return Ok(Some(name)),
                Err(fault) => return Err(fault),
            }
        }
        match piece_fault(said, found.at, found.word) {
            Ok(more) => said = more,
            Err(fault) => return Err(fault),
        }
        end = next;
        at = found.rest_at;
        rest = found.rest;
    }
    if makes {
        return Err(spot(end, RefusalKind::Words));
    }
    Ok(None)
}

/// Whether a word is the `as` behind the pieces.
fn is_as(makes: bool, word: &[u8]) -> bool
    ensures { result ≡ (makes && bytes_eq word.now (codes "as")) }
{
    makes && word == b"as".as_slice()
}

/// `-` alone or at least one piece, and then `as NAME` exactly where a file is made: its name.
pub fn bytes_read(makes: bool, end: usize, at: usize, line: &[u8]) -> Result<Option<Name>, Spot>
    requires long { at + length line.now + 1 < 2 ^ 32 }
    requires end { end < 2 ^ 32 }
    ensures { Finds (bytes_fault makes end (words_at at line.now)) (made_by makes (words_at at line.now)) result }
{
    let Some(found) = next_word(at, line) else {
        return Err(spot(end, RefusalKind::Words));
    };
    let next = found.at + found.word.len();
    if found.word == b"-".as_slice() {
        return none_read(makes, next, found.rest_at, found.rest);
    }
    match piece_fault(0, found.at, found.word) {
        Ok(said) => pieces_read(makes, said, next, found.rest_at, found.rest),
        Err(fault) => Err(fault),
    }
}

/// What may stand behind `-`: `as NAME` exactly where a file is made.
fn none_read(makes: bool, end: usize, at: usize, line: &[u8]) -> Result<Option<Name>, Spot>
    requires long { at + length line.now + 1 < 2 ^ 32 }
    requires end { end < 2 ^ 32 }
    ensures { Finds (if makes then as_fault end (words_at at line.now) else more_fault (words_at at line.now)) (made_by makes (words_at at line.now)) result }
{
    if makes {
        return as_read(end, at, line);
    }
    match more_fault(at, line) {
        Some(fault) => Err(fault),
        None => Ok(None),
    }
}

/// The text of a word; none where it is missing.
pub fn text_at(i: u32, at: usize, line: &[u8]) -> &[u8]
    requires { at + length line.now + 1 < 2 ^ 64 }
    ensures { result.now ≡ text_at i (words_at at line.now) }
{
    let mut i = i;
    let mut at = at;
    let mut rest = line;
    while let Some(found) = next_word(at, rest) {
        if i == 0 {
            return found.word;
        }
        i -= 1;
        at = found.rest_at;
        rest = found.rest;
    }
    &[]
}
