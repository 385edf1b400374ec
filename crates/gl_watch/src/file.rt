//! An open chip file.

ghost use Rattle.std.specs.Prelude.{◌≡◌, ◌<◌, length};
ghost use Rattle.gl_base.specs.declared.limits.TheConstants.{LINES_MAX};

use crate::lines::WatchedLines;
use crate::queue::InfoQueue;
use gl_base::LINES_MAX;
use gl_uapi::Changed;

/// An open chip file where it stands among the files, as a look-up found it. It stands there until a file is closed.
#[derive(Clone, Copy, PartialEq, Eq)]
pub struct FileAt {
    /// The file's number.
    pub fd: u32,
    /// The position of its row, counted from 0.
    pub at: usize,
}

/// An open chip file: its number, its chip's place, the lines that it watches, and the changes that wait
/// for it.
#[derive(Drop)]
pub struct ChipFile {
    /// The file's number.
    pub fd: u32,
    /// The place of its chip.
    pub place: u8,
    /// Whether it watches a line, by offset.
    pub watched: WatchedLines,
    /// The changes that wait, the oldest first.
    pub changes: InfoQueue,
}

impl ChipFile {
    ghost use Rattle.gl_watch.specs.Files.{is_watching, with_watch, notified};

    /// Whether the file watches a line.
    pub(crate) fn is_watching(&self, offset: u32) -> bool
        requires { offset < LINES_MAX }
        ensures { result ≡ is_watching offset self.now }
    {
        self.watched.has(offset)
    }

    /// Sets whether the file watches a line.
    pub(crate) fn set_watch(&mut self, offset: u32, watch: bool)
        requires { offset < LINES_MAX }
        ensures { self.new ≡ with_watch offset watch self.old }
    {
        self.watched.set(offset, watch);
    }

    /// Tells the file of a change of a line of a place.
    pub(crate) fn notify(&mut self, place: u8, changed: &Changed)
        requires { changed.now.info.offset < LINES_MAX }
        ensures { self.new ≡ notified place changed.now self.old }
    {
        if self.place == place && self.is_watching(changed.info.offset) {
            self.changes.push(changed);
        }
    }
}
