//! The words of a line.

use gl_base::{Errno, Name, Path, put_piece, read_decimal};

/// A line of words, with one blank between two of them. A word is told by its number, counted from 0, and is the empty one behind the last.
#[derive(Clone, Copy)]
pub struct Words<'a> {
    line: &'a [u8],
}

impl<'a> Words<'a> {
    /// The words of a line.
    pub fn of(line: &'a [u8]) -> Words<'a> {
        Words { line }
    }

    /// A word.
    pub fn word(self, at: usize) -> &'a [u8] {
        match self.line.split(|byte| *byte == b' ').nth(at) {
            Some(word) => word,
            None => b"",
        }
    }

    /// A word as a number: 0 where it is none.
    pub fn number(self, at: usize) -> u64 {
        read_decimal(self.word(at)).unwrap_or(0)
    }

    /// A word as a number of 32 bits.
    pub fn word32(self, at: usize) -> u32 {
        u32::try_from(self.number(at)).unwrap_or(0)
    }

    /// A word as a number of 8 bits.
    pub fn byte(self, at: usize) -> u8 {
        u8::try_from(self.number(at)).unwrap_or(0)
    }

    /// A word as a name: the empty one where it is none.
    pub fn name(self, at: usize) -> Name {
        Name::of(self.word(at)).unwrap_or(Name::empty())
    }

    /// A word as a path: the empty one where it is none.
    pub fn path(self, at: usize) -> Path {
        match Path::of(self.word(at)) {
            Some(path) => path,
            None => Path::of(b"").unwrap(),
        }
    }

    /// Whether a word is this one.
    pub fn is(self, at: usize, word: &[u8]) -> bool {
        self.word(at) == word
    }

    /// Appends the bytes of the words from one on.
    pub fn put_bytes(self, at: usize, out: &mut Vec<u8>) -> Result<(), Errno> {
        for word in self.line.split(|byte| *byte == b' ').skip(at) {
            put_piece(word, out)?;
        }
        Ok(())
    }
}
