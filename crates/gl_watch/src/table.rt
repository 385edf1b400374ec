//! Files found, changed and taken out.

ghost use Rattle.std.specs.Prelude.{◌≡◌, ◌+◌, ◌*◌, ◌<◌, ◌≤◌, ◌++◌, ◌∷◌, [], length, map, min, option_copied, slice_index_or, take, drop, remove};
ghost use Rattle.std.specs.List.{flat_map, position};
ghost use Rattle.std.specs.VecDeque.{deque_capacity};
ghost use Rattle.gl_base.specs.Rows.{change_first, without_first};
ghost use Rattle.gl_uapi.specs.InfoChanged.{changed_bytes};
ghost use Rattle.gl_watch.specs.Files.{StandsAt, is_file, file_at, with_watch, notified, waiting_in, without_changes};
ghost use Rattle.gl_watch.specs.Answers.{changes_of};

use crate::file::{ChipFile, FileAt};
use crate::queue::InfoQueue;
use gl_base::LINES_MAX;
use gl_uapi::Changed;
use gl_uapi::layout::INFO_CHANGED_SIZE;
use std::collections::VecDeque;

/// Adds a file behind the others, where there is room.
pub(crate) fn push_file(files: &mut VecDeque<ChipFile>, file: ChipFile)
    requires { length files.old.items < deque_capacity files.old }
    ensures items { files.new.items ≡ files.old.items ++ file ∷ [] }
    ensures capacity { deque_capacity files.new ≡ deque_capacity files.old }
{
    files.push_back_reserved(file);
}

/// Where the file of a number stands.
pub(crate) fn position_of(files: &VecDeque<ChipFile>, fd: u32) -> Option<usize>
    ensures { result ≡ position (is_file fd) files.now.items }
{
    files.iter().position(|file| file.fd == fd)
}

/// The file of a number.
pub(crate) fn file_at(files: &VecDeque<ChipFile>, fd: u32) -> Option<&ChipFile>
    ensures { option_copied result ≡ file_at fd files.now.items }
{
    files.iter().find(|file| file.fd == fd)
}

/// Takes the file at a position out.
fn take_at(files: &mut VecDeque<ChipFile>, at: usize) -> ChipFile
    requires { at < length files.old.items }
    ensures file { result ≡ slice_index_or files.old.items at result }
    ensures files { files.new.items ≡ remove files.old.items at }
    ensures capacity { deque_capacity files.new ≡ deque_capacity files.old }
    ensures fewer { length files.new.items + 1 ≡ length files.old.items }
{
    match files.remove(at) {
        Some(file) => file,
        None => unreachable!(),
    }
}

/// Takes a file out, and gives its queue.
#[tactic(auto, using(crate::proofs::Found::found))]
pub(crate) fn remove_file(files: &mut VecDeque<ChipFile>, fd: u32) -> Option<InfoQueue>
    ensures queue { result ≡ changes_of (file_at fd files.old.items) }
    ensures files { files.new.items ≡ without_first (is_file fd) files.old.items }
    ensures capacity { deque_capacity files.new ≡ deque_capacity files.old }
    ensures fewer { length files.new.items ≤ length files.old.items }
{
    match position_of(files, fd) {
        Some(at) => Some(take_at(files, at).changes),
        None => None,
    }
}

/// Sets whether the file that was found watches a line.
#[tactic(auto, using(crate::proofs::Found::found))]
pub(crate) fn set_watch_at(files: &mut VecDeque<ChipFile>, found: FileAt, offset: u32, watch: bool)
    requires offset { offset < LINES_MAX }
    requires stands { StandsAt found files.old.items }
    ensures files { files.new.items ≡ change_first (is_file found.fd) (with_watch offset watch) files.old.items }
    ensures capacity { deque_capacity files.new ≡ deque_capacity files.old }
    ensures as_many { length files.new.items ≡ length files.old.items }
{
    files[found.at].set_watch(offset, watch);
}

/// Tells each file of a change.
pub(crate) fn notify_all(files: &mut VecDeque<ChipFile>, place: u8, changed: &Changed)
    requires { changed.now.info.offset < LINES_MAX }
    ensures files { files.new.items ≡ map (notified place changed.now) files.old.items }
    ensures capacity { deque_capacity files.new ≡ deque_capacity files.old }
    ensures as_many { length files.new.items ≡ length files.old.items }
{
    for i in 0..files.len() {
        files[i].notify(place, changed);
    }
}

/// Moves the first changes of the file that was found into `out`.
#[tactic(auto, using(crate::proofs::Found::found))]
pub(crate) fn read_file_at(
    files: &mut VecDeque<ChipFile>,
    found: FileAt,
    max: u32,
    out: &mut [u8],
) -> u32
    requires room { INFO_CHANGED_SIZE * max ≤ length out.old }
    requires stands { StandsAt found files.old.items }
    ensures count { result ≡ min max (length (waiting_in (file_at found.fd files.old.items))) }
    ensures files { files.new.items ≡ change_first (is_file found.fd) (without_changes result) files.old.items }
    ensures out { out.new ≡ flat_map changed_bytes (take result (waiting_in (file_at found.fd files.old.items))) ++ drop (INFO_CHANGED_SIZE * result) out.old }
    ensures capacity { deque_capacity files.new ≡ deque_capacity files.old }
    ensures as_many { length files.new.items ≡ length files.old.items }
{
    files[found.at].changes.read(max, out)
}
