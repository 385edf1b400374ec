//! Sessions, their first faults and their costs.

use crate::texts::put_word;
use crate::word;
use gl_base::{Errno, put_decimal, read_decimal};
use gl_script::{
    Script, generate, loads_are_sessions, sentence_is_single, sentences_are_spelled,
    spelled_are_sentences,
};
use std::alloc::Global;

/// The line, the column and the kind of the first fault of a text; its cost, 0 and `ok` where there is none.
fn first_fault(alloc: Global, text: &[u8]) -> (u64, u32, &'static str) {
    match Script::parse(alloc, text) {
        Ok(script) => (script.cost(), 0, "ok"),
        Err(refusal) => (u64::from(refusal.line), refusal.column, refusal.kind.word()),
    }
}

/// Appends the first fault of a text.
fn put_fault(alloc: Global, text: &[u8], out: &mut Vec<u8>) -> Result<(), Errno> {
    let (line, column, kind) = first_fault(alloc, text);
    put_decimal(line, out)?;
    put_word(b" ", out)?;
    put_decimal(u64::from(column), out)?;
    put_word(b" ", out)?;
    put_word(kind.as_bytes(), out)
}

/// The byte that one of a part stands for.
fn byte_of(byte: u8) -> u8 {
    match byte {
        b'|' => b'\n',
        b'~' => b'\t',
        b'^' => 0x7f,
        _ => byte,
    }
}

/// Appends the text of a part.
fn put_text(part: &[u8], text: &mut Vec<u8>) -> Result<(), Errno> {
    for byte in part {
        text.push(byte_of(*byte))?;
    }
    Ok(())
}

/// Appends a part, as many times as it says.
fn put_part(part: &[u8], text: &mut Vec<u8>) -> Result<(), Errno> {
    let mut rest = part;
    let times = number(&mut rest);
    for _ in 0..times {
        put_text(rest, text)?;
    }
    Ok(())
}

/// Takes the first word of a text as a number; 0 where it is none.
fn number(rest: &mut &[u8]) -> u64 {
    match read_decimal(word(rest)) {
        Some(number) => number,
        None => 0,
    }
}

/// Appends all parts.
fn put_parts(parts: &[u8], text: &mut Vec<u8>) -> Result<(), Errno> {
    for part in parts.split(|byte| *byte == b';') {
        put_part(part, text)?;
    }
    Ok(())
}

/// Appends the first fault of the session that some parts make.
pub fn put(alloc: Global, parts: &[u8], out: &mut Vec<u8>) -> Result<(), Errno> {
    let mut text = Vec::new(alloc);
    put_parts(parts, &mut text)?;
    put_fault(alloc, &text, out)
}

/// Appends the text of the load of this number.
pub fn put_turns(number: &[u8], out: &mut Vec<u8>) -> Result<(), Errno> {
    match read_decimal(number) {
        Some(number) => put_turns_of(number, out),
        None => Err(Errno::Inval),
    }
}

/// The same of a number.
fn put_turns_of(number: u64, out: &mut Vec<u8>) -> Result<(), Errno> {
    match u32::try_from(number) {
        Ok(number) => generate(number, out),
        Err(_) => Err(Errno::Inval),
    }
}

/// Appends the first fault of the load of this number.
pub fn put_load(alloc: Global, number: &[u8], out: &mut Vec<u8>) -> Result<(), Errno> {
    let mut text = Vec::new(alloc);
    put_turns(number, &mut text)?;
    loads_are_sessions();
    sentence_is_single();
    sentences_are_spelled();
    spelled_are_sentences();
    put_fault(alloc, &text, out)
}
