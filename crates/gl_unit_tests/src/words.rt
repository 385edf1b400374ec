//! The words of a command line.

use crate::texts::put_word;
use gl_base::{Errno, put_decimal};
use gl_words::{Task, WordsFault, read_words};
use std::alloc::Global;

/// Words as they stand in a text, with one blank between two of them; none where the text is `-`.
fn words_of(alloc: Global, text: &[u8]) -> Result<Vec<&str>, Errno> {
    let mut words = Vec::new(alloc);
    if text != b"-".as_slice() {
        for word in text.split(|byte| *byte == b' ') {
            words.push(text_of(word))?;
        }
    }
    Ok(words)
}

/// A word as text.
fn text_of(word: &[u8]) -> &str {
    str::from_utf8(word).unwrap_or("?")
}

/// Appends what the words of a text ask for.
pub fn put(alloc: Global, text: &[u8], out: &mut Vec<u8>) -> Result<(), Errno> {
    let words = words_of(alloc, text)?;
    put_task(read_words(alloc, &words), out)
}

/// Appends what words ask for.
fn put_task(asked: Result<Task, WordsFault>, out: &mut Vec<u8>) -> Result<(), Errno> {
    match asked {
        Ok(Task::Session) => put_word(b"session", out),
        Ok(Task::Load(turns)) => put_decimal(u64::from(turns), out),
        Ok(Task::Check) => put_word(b"check", out),
        Err(WordsFault::Usage) => put_word(b"usage", out),
        Err(WordsFault::NoMemory) => Err(Errno::NoMemory),
    }
}
