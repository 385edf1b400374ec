//! Lines that are no statements of a session, and what they print.

ghost use Rattle.std.specs.Prelude.{◌≡◌, ◌++◌, ℕ, List, drop, IfOk, OnOk, OnErr, IsOkUnless};
ghost use Rattle.gl_script.specs.Served.{kinds};
ghost use Rattle.gl_served.specs.Questions.{bytes_text_line, due_text, moment_text, moved, question_in, question_of, read_word, shift_of, shown, text_or};

use crate::limits::LINE_MAX;
use gl_base::{ByteList, Errno, Got, put_bytes, put_decimal};
use gl_script::{LineKind, Spot, Stage};
use std::alloc::Global;

/// The question that a line is.
#[derive(Clone, Copy, PartialEq, Eq)]
pub enum Question {
    /// None: it is a line of the session.
    Nothing,
    /// `due`: which deadline is the earliest.
    Due,
    /// `data NAME N`: what a file has to be read, as bytes.
    Data,
}

/// The question that a line is where the session has come so far.
pub fn question_of(stage: Stage, line: &[u8]) -> Question
    ensures { result ≡ question_of stage line.now }
{
    match stage {
        Stage::Opening | Stage::Headed(_) => Question::Nothing,
        Stage::Open(_) => {
            if line.len() > LINE_MAX {
                return Question::Nothing;
            }
            question_in(line)
        }
    }
}

fn question_in(line: &[u8]) -> Question
    ensures { result ≡ question_in line.now }
{
    if line == b"due".as_slice() {
        return Question::Due;
    }
    if line.starts_with(b"data ") {
        return Question::Data;
    }
    Question::Nothing
}

/// The earliest deadline, or `-`, as a line.
pub fn due_line(alloc: Global, moment: Option<u64>) -> Result<Vec<u8>, Errno>
    ensures ok { IfOk result (λ line. line.items ≡ due_text moment) }
    ensures memory_alone { IsOkUnless result Errno.NoMemory }
{
    let mut line = Vec::new(alloc);
    put_moment(moment, &mut line)?;
    line.push(b'\n')?;
    Ok(line)
}

fn put_moment(moment: Option<u64>, out: &mut Vec<u8>) -> Result<(), Errno>
    ensures ok { OnOk result (out.new.items ≡ out.old.items ++ moment_text moment) }
    ensures memory_alone { IsOkUnless result Errno.NoMemory }
{
    match moment {
        Some(moment) => put_decimal(moment, out),
        None => {
            out.extend_from_slice(b"-")?;
            Ok(())
        }
    }
}

/// The words after `data`.
pub fn behind_data(line: &[u8]) -> &[u8]
    ensures { result.now ≡ drop 5 line.now }
{
    if line.len() < 5 {
        return &[];
    }
    let (_, rest) = line.split_at(5);
    rest
}

/// The statement that a `data` with these words after it stands for: `changes` of a chip's file, else `events`.
pub fn read_statement(alloc: Global, of_chip: bool, rest: &[u8]) -> Result<Vec<u8>, Errno>
    ensures ok { IfOk result (λ line. line.items ≡ read_word of_chip ++ rest.now) }
    ensures memory_alone { IsOkUnless result Errno.NoMemory }
{
    let mut line = read_word(of_chip).to_vec(alloc)?;
    line.extend_from_slice(rest)?;
    Ok(line)
}

fn read_word(of_chip: bool) -> &'static [u8]
    ensures { result.now ≡ read_word of_chip }
{
    if of_chip { b"changes " } else { b"events " }
}

/// By how many bytes that statement is longer than the `data`.
pub fn shift_of(of_chip: bool) -> u32
    ensures { result ≡ shift_of of_chip }
{
    if of_chip { 3 } else { 2 }
}

/// A fault so many columns further in front.
pub fn moved(count: u32, kind: Result<LineKind, Spot>) -> Result<LineKind, Spot>
    ensures moved { kinds result ≡ moved count (kinds kind) }
    ensures same { IfOk result (λ line. kind ≡ Ok line) }
{
    match kind {
        Ok(kind) => Ok(kind),
        Err(fault) => Err(Spot {
            column: fault.column.saturating_sub(count),
            kind: fault.kind,
        }),
    }
}

/// The bytes that were read as a line; None where none were.
pub fn bytes_line(alloc: Global, got: &Option<Got>) -> Result<Option<ByteList>, Errno>
    ensures ok { IfOk result (λ read. (text : List ℕ) → shown got.now text ≡ text_or read text) }
    ensures memory_alone { IsOkUnless result Errno.NoMemory }
{
    match got {
        Some(Got::Bytes(bytes)) => {
            let line = line_of_bytes(alloc, bytes.as_slice())?;
            Ok(Some(line))
        }
        _ => Ok(None),
    }
}

fn line_of_bytes(alloc: Global, bytes: &[u8]) -> Result<ByteList, Errno>
    ensures ok { IfOk result (λ line. line ≡ bytes_text_line bytes.now) }
    ensures memory_alone { IsOkUnless result Errno.NoMemory }
{
    let mut line = Vec::new(alloc);
    put_bytes(bytes, &mut line)?;
    line.push(b'\n')?;
    Ok(ByteList::of(line))
}

/// Appends the first of two texts, or the second where there is no first. When out of memory nothing is appended.
pub fn put_text_or(first: &Option<ByteList>, text: &[u8], out: &mut Vec<u8>) -> Result<(), Errno>
    ensures ok { OnOk result (out.new.items ≡ out.old.items ++ text_or first.now text.now) }
    ensures kept { OnErr result (out.new.items ≡ out.old.items) }
    ensures memory_alone { IsOkUnless result Errno.NoMemory }
{
    match first {
        Some(first) => {
            out.extend_from_slice(first.as_slice())?;
            Ok(())
        }
        None => {
            out.extend_from_slice(text)?;
            Ok(())
        }
    }
}
