//! The parts of a case.

use gl_base::{Errno, split_first};
use std::alloc::Global;

/// Takes the next part; the empty one after the last.
pub fn part<'a>(rest: &mut &'a [u8]) -> &'a [u8] {
    let (part, behind) = split_first(*rest, b'|');
    *rest = match behind {
        Some(behind) => behind,
        None => b"",
    };
    part
}

/// A tool's words, as they stand in a statement.
pub fn words_of(alloc: Global, text: &[u8]) -> Result<Vec<&[u8]>, Errno> {
    let mut words = Vec::new(alloc);
    for word in text.split(|byte| *byte == b' ') {
        words.push(word)?;
    }
    Ok(words)
}
