//! The open chip files, in order of their opening.

ghost use Rattle.std.specs.Prelude.{◌≡◌, ◌*◌, ◌<◌, ◌≤◌, [], ◌∷◌, ◌++◌, length, map, min, take, drop, nat_le, true, false, is_some, None, IfOk, IfSome, IsOkUnless};
ghost use Rattle.std.specs.List.{flat_map};
ghost use Rattle.gl_base.specs.Refusals.{answer, unless};
ghost use Rattle.gl_base.specs.Rows.{change_first, without_first};
ghost use Rattle.gl_uapi.specs.InfoChanged.{changed_bytes};

use crate::file::{ChipFile, FileAt};
use crate::lines::WatchedLines;
use crate::queue::InfoQueue;
use crate::table::{
    file_at, notify_all, position_of, push_file, read_file_at, remove_file, set_watch_at,
};
use gl_base::{Errno, FILES_MAX, LINES_MAX};
use gl_uapi::Changed;
use gl_uapi::layout::INFO_CHANGED_SIZE;
use std::alloc::Global;
use std::collections::VecDeque;
use std::marker::Model;

/// The open chip files. Where one is closed, those on its shorter side move: none where it is the oldest or the newest.
/// Contracts see the list of them, in order of their opening.
#[derive(Drop)]
pub struct Watches {
    files: VecDeque<ChipFile>,
}

impl Model for Watches {
    ghost use Rattle.std.specs.Prelude.{◌≡◌, ◌≤◌, List, length};
    ghost use Rattle.std.specs.VecDeque.{deque_capacity};
    ghost use Rattle.gl_base.specs.declared.limits.TheConstants.{FILES_MAX};
    ghost use Rattle.gl_watch.specs.declared.file.ChipFile.{ChipFile};

    ghost Value = { List ChipFile };

    ghost view = { λ w. w.files.items };

    ghost invariant = { λ w. (deque_capacity w.files ≡ FILES_MAX) × (length w.files.items ≤ FILES_MAX) };
}

impl Watches {
    ghost use Rattle.gl_watch.specs.Files.{StandsAt, is_file, is_open_at, file_at, new_file, with_watch, watch_refusal, unwatch_refusal, notified, waiting_in, without_changes};
    ghost use Rattle.gl_watch.specs.Answers.{changes_of, place_of};

    /// No open file, with room for all that may be open. `NoMemory` alone is refused.
    pub fn new(alloc: Global) -> Result<Watches, Errno>
        ensures ok { IfOk result (λ watches. watches ≡ []) }
        ensures memory_alone { IsOkUnless result Errno.NoMemory }
    {
        match VecDeque::with_capacity(alloc, FILES_MAX as usize) {
            Ok(files) => Ok(Watches { files }),
            Err(_) => Err(Errno::NoMemory),
        }
    }

    /// Opens a file of a new number on the chip of a place, with an empty queue for its changes. It watches no line.
    pub fn add(&mut self, fd: u32, place: u8, queue: InfoQueue)
        requires room { length self.old < FILES_MAX }
        requires number { file_at fd self.old ≡ None }
        requires empty { queue ≡ [] }
        ensures { self.new ≡ self.old ++ new_file fd place queue ∷ [] }
    {
        let file = ChipFile {
            fd,
            place,
            watched: WatchedLines::none(),
            changes: queue,
        };
        push_file(&mut self.files, file);
    }

    /// How many files are open.
    pub fn len(&self) -> u32
        ensures len { result ≡ length self.now }
        ensures within { result ≤ FILES_MAX }
    {
        self.files.len() as u32
    }

    /// How many files there is room for. It is always `FILES_MAX`, since no call but `new` takes memory.
    pub fn capacity(&self) -> u32
        ensures { result ≡ FILES_MAX }
    {
        self.files.capacity() as u32
    }

    /// Whether no more file can be opened.
    pub fn is_full(&self) -> bool
        ensures { result ≡ nat_le FILES_MAX (length self.now) }
    {
        self.files.len() >= FILES_MAX as usize
    }

    /// Closes a file, and gives its queue back with the changes that waited. None comes exactly without such
    /// a file.
    pub fn remove(&mut self, fd: u32) -> Option<InfoQueue>
        ensures queue { result ≡ changes_of (file_at fd self.old) }
        ensures files { self.new ≡ without_first (is_file fd) self.old }
    {
        remove_file(&mut self.files, fd)
    }

    /// The place of a file's chip. None comes exactly without such a file.
    pub fn place(&self, fd: u32) -> Option<u8>
        ensures { result ≡ place_of (file_at fd self.now) }
    {
        match file_at(&self.files, fd) {
            Some(file) => Some(file.place),
            None => None,
        }
    }

    /// Where the file of this number stands, if its chip is at this place.
    #[tactic(auto, using(crate::proofs::Found::found))]
    pub fn find_open(&self, place: u8, fd: u32) -> Option<FileAt>
        ensures open { is_some result ≡ is_open_at place (file_at fd self.now) }
        ensures number { IfSome result (λ found. found.fd ≡ fd) }
        ensures stands { IfSome result (λ found. StandsAt found self.now) }
    {
        match position_of(&self.files, fd) {
            Some(at) => {
                if self.files[at].place == place {
                    Some(FileAt { fd, at })
                } else {
                    None
                }
            }
            None => None,
        }
    }

    /// Makes a file watch a line. `Busy` comes exactly where this file watches it, and then nothing changes;
    /// without such a file nothing changes either.
    #[tactic(auto, using(crate::proofs::Found::found))]
    pub fn watch(&mut self, fd: u32, offset: u32) -> Result<(), Errno>
        requires { offset < LINES_MAX }
        ensures answer { result ≡ answer (watch_refusal offset (file_at fd self.old)) tt }
        ensures files { self.new ≡ unless (watch_refusal offset (file_at fd self.old)) (change_first (is_file fd) (with_watch offset true) self.old) self.old }
    {
        match position_of(&self.files, fd) {
            Some(at) => self.watch_at(FileAt { fd, at }, offset),
            None => Ok(()),
        }
    }

    /// The same, of the file that was found.
    #[tactic(auto, using(crate::proofs::Found::found))]
    pub fn watch_at(&mut self, found: FileAt, offset: u32) -> Result<(), Errno>
        requires offset { offset < LINES_MAX }
        requires stands { StandsAt found self.old }
        ensures answer { result ≡ answer (watch_refusal offset (file_at found.fd self.old)) tt }
        ensures files { self.new ≡ unless (watch_refusal offset (file_at found.fd self.old)) (change_first (is_file found.fd) (with_watch offset true) self.old) self.old }
    {
        if self.files[found.at].is_watching(offset) {
            return Err(Errno::Busy);
        }
        set_watch_at(&mut self.files, found, offset, true);
        Ok(())
    }

    /// Makes a file watch a line no more. `Busy` comes exactly where this file doesn't watch it, and then
    /// nothing changes; without such a file nothing changes either.
    #[tactic(auto, using(crate::proofs::Found::found))]
    pub fn unwatch(&mut self, fd: u32, offset: u32) -> Result<(), Errno>
        requires { offset < LINES_MAX }
        ensures answer { result ≡ answer (unwatch_refusal offset (file_at fd self.old)) tt }
        ensures files { self.new ≡ unless (unwatch_refusal offset (file_at fd self.old)) (change_first (is_file fd) (with_watch offset false) self.old) self.old }
    {
        match position_of(&self.files, fd) {
            Some(at) => self.unwatch_at(FileAt { fd, at }, offset),
            None => Ok(()),
        }
    }

    /// The same, of the file that was found.
    #[tactic(auto, using(crate::proofs::Found::found))]
    pub fn unwatch_at(&mut self, found: FileAt, offset: u32) -> Result<(), Errno>
        requires offset { offset < LINES_MAX }
        requires stands { StandsAt found self.old }
        ensures answer { result ≡ answer (unwatch_refusal offset (file_at found.fd self.old)) tt }
        ensures files { self.new ≡ unless (unwatch_refusal offset (file_at found.fd self.old)) (change_first (is_file found.fd) (with_watch offset false) self.old) self.old }
    {
        if !self.files[found.at].is_watching(offset) {
            return Err(Errno::Busy);
        }
        set_watch_at(&mut self.files, found, offset, false);
        Ok(())
    }

    /// Tells each file of the place that watches the changed line. A file with 32 changes keeps those.
    pub fn notify(&mut self, place: u8, changed: &Changed)
        requires { changed.now.info.offset < LINES_MAX }
        ensures { self.new ≡ map (notified place changed.now) self.old }
    {
        notify_all(&mut self.files, place, changed);
    }

    /// How many changes wait for a file; 0 without such a file.
    #[tactic(auto, using(crate::proofs::Found::found))]
    pub fn waiting(&self, fd: u32) -> u32
        ensures { result ≡ length (waiting_in (file_at fd self.now)) }
    {
        match position_of(&self.files, fd) {
            Some(at) => self.waiting_at(FileAt { fd, at }),
            None => 0,
        }
    }

    /// How many changes wait for the file that was found.
    #[tactic(auto, using(crate::proofs::Found::found))]
    pub fn waiting_at(&self, found: FileAt) -> u32
        requires { StandsAt found self.now }
        ensures { result ≡ length (waiting_in (file_at found.fd self.now)) }
    {
        self.files[found.at].changes.len()
    }

    /// Moves a file's first changes into `out`, at most `max` of them, as bytes one after the other, and
    /// answers how many. What stands behind them in `out` stays.
    #[tactic(auto, using(crate::proofs::Found::found))]
    pub fn read(&mut self, fd: u32, max: u32, out: &mut [u8]) -> u32
        requires { INFO_CHANGED_SIZE * max ≤ length out.old }
        ensures count { result ≡ min max (length (waiting_in (file_at fd self.old))) }
        ensures files { self.new ≡ change_first (is_file fd) (without_changes result) self.old }
        ensures out { out.new ≡ flat_map changed_bytes (take result (waiting_in (file_at fd self.old))) ++ drop (INFO_CHANGED_SIZE * result) out.old }
    {
        match position_of(&self.files, fd) {
            Some(at) => self.read_at(FileAt { fd, at }, max, out),
            None => 0,
        }
    }

    /// The same, of the file that was found.
    pub fn read_at(&mut self, found: FileAt, max: u32, out: &mut [u8]) -> u32
        requires room { INFO_CHANGED_SIZE * max ≤ length out.old }
        requires stands { StandsAt found self.old }
        ensures count { result ≡ min max (length (waiting_in (file_at found.fd self.old))) }
        ensures files { self.new ≡ change_first (is_file found.fd) (without_changes result) self.old }
        ensures out { out.new ≡ flat_map changed_bytes (take result (waiting_in (file_at found.fd self.old))) ++ drop (INFO_CHANGED_SIZE * result) out.old }
    {
        read_file_at(&mut self.files, found, max, out)
    }
}
