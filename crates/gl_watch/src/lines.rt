//! The lines that a chip file watches.

ghost use Rattle.std.specs.Prelude.{◌≡◌, ◌<◌, ◌/◌, false, length, slice_index_or, slice_set};
ghost use Rattle.gl_base.specs.declared.limits.TheConstants.{LINES_MAX};
ghost use Rattle.gl_watch.specs.Files.{no_lines};
ghost use Rattle.gl_watch.specs.Watched.{is_marked, with_mark_changed};

use gl_base::{LINES_MAX, has_bit};
use std::marker::Model;

/// How many words have a bit for each line of a chip.
pub(crate) const WORDS: usize = (LINES_MAX as usize + 63) / 64;

/// Some of the lines of a chip: a bit for each of them. Contracts see whether each line is one of them, by offset.
#[derive(Drop)]
pub struct WatchedLines {
    words: [u64; WORDS],
}

impl Model for WatchedLines {
    ghost use Rattle.std.specs.Prelude.{Bool, List};
    ghost use Rattle.gl_base.specs.Positions.{table_from};
    ghost use Rattle.gl_base.specs.declared.limits.TheConstants.{LINES_MAX};
    ghost use Rattle.gl_watch.specs.Watched.{is_marked};

    ghost Value = { List Bool };

    ghost view = { λ l. table_from (is_marked l.words) 0 LINES_MAX };
}

impl WatchedLines {
    /// No line.
    pub(crate) fn none() -> WatchedLines
        ensures { result ≡ no_lines }
    {
        WatchedLines { words: [0; WORDS] }
    }

    /// Whether a line is one of them.
    pub(crate) fn has(&self, offset: u32) -> bool
        requires { offset < LINES_MAX }
        ensures { result ≡ slice_index_or self.now offset false }
    {
        is_marked(&self.words, offset)
    }

    /// A line becomes one of them, or isn't one any more.
    pub(crate) fn set(&mut self, offset: u32, watch: bool)
        requires { offset < LINES_MAX }
        ensures { self.new ≡ slice_set self.old offset watch }
    {
        if is_marked(&self.words, offset) {
            if !watch {
                change_mark(&mut self.words, offset);
            }
        } else if watch {
            change_mark(&mut self.words, offset);
        }
    }
}

/// Whether the bit of a line is set.
fn is_marked(words: &[u64], offset: u32) -> bool
    requires { offset / 64 < length words.now }
    ensures { result ≡ is_marked words.now offset }
{
    has_bit(words[(offset / 64) as usize], offset % 64)
}

/// Changes the bit of a line.
fn change_mark(words: &mut [u64], offset: u32)
    requires { offset / 64 < length words.old }
    ensures within { offset / 64 < length words.old }
    ensures words { words.new ≡ with_mark_changed offset words.old }
{
    words[(offset / 64) as usize] ^= 1 << (offset % 64);
}
