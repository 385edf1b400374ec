//! The open files of an actor, by the slots that operations name.

ghost use Rattle.std.specs.Prelude.{vec_len, vec_capacity, ◌≡◌, ◌+◌, ◌≤◌, map};
ghost use Rattle.std.specs.List.{position};
ghost use Rattle.gl_asking.specs.Asking.{file_for, files_behind};
ghost use Rattle.gl_asking.specs.Changes.{IsChange, NamesMade, OpensWithin, changed};
ghost use Rattle.gl_asking.specs.Files.{file_in, without_file};
ghost use Rattle.gl_asking.specs.Rows.{IsRow, IsSomeRow, file_of, row_file};
ghost use Rattle.gl_base.specs.Rows.{Each};
ghost use Rattle.gl_check.specs.Rows.{is_row};

use gl_asking::{Answered, Change, FileRow, files_behind, slot_named};
use gl_base::Do;

/// Where the file in a slot stands.
fn position_of(rows: &[FileRow], slot: u32) -> Option<usize>
    ensures { result ≡ position (is_row slot) rows.now }
{
    rows.iter().position(|row| row.slot() == slot)
}

/// The file in a slot, if there is one.
fn row_in(rows: &[FileRow], slot: u32) -> Option<FileRow>
    requires { Each IsRow rows.now }
    ensures found { file_of result ≡ file_in slot (map row_file rows.now) }
    ensures row { IsSomeRow result }
{
    match position_of(rows, slot) {
        Some(at) => Some(rows[at]),
        None => None,
    }
}

/// The file that an operation names, if it names one and it is there.
pub fn row_for(rows: &[FileRow], what: &Do) -> Option<FileRow>
    requires { Each IsRow rows.now }
    ensures found { file_for what.now (map row_file rows.now) ≡ file_of result }
    ensures row { IsSomeRow result }
{
    match slot_named(what) {
        Some(slot) => row_in(rows, slot),
        None => None,
    }
}

/// The open files after an operation that was answered so. There is room for a file more.
pub fn keep(rows: &mut Vec<FileRow>, what: &Do, row: Option<FileRow>, answered: &Answered)
    requires rows { Each IsRow rows.old.items }
    requires room { vec_len rows.old + 1 ≤ vec_capacity rows.old }
    requires row { IsSomeRow row }
    requires found { file_for what.now (map row_file rows.old.items) ≡ file_of row }
    requires opens { OpensWithin what.now answered.now.reply }
    requires named { NamesMade what.now row answered.now }
    ensures rows { Each IsRow rows.new.items }
    ensures files { map row_file rows.new.items ≡ files_behind what.now answered.now.reply (map row_file rows.old.items) }
{
    change(rows, files_behind(what, row, answered));
}

/// Makes a change. There is room for a row more.
fn change(rows: &mut Vec<FileRow>, change: Change<FileRow>)
    requires room { vec_len rows.old + 1 ≤ vec_capacity rows.old }
    requires change { IsChange change }
    requires rows { Each IsRow rows.old.items }
    ensures changed { map row_file rows.new.items ≡ changed change (map row_file rows.old.items) }
    ensures rows { Each IsRow rows.new.items }
{
    match change {
        Change::Stays => {}
        Change::Adds(row) => add(rows, row),
        Change::Removes(slot) => remove(rows, slot),
    }
}

/// Adds a file. There is room for it.
fn add(rows: &mut Vec<FileRow>, row: FileRow)
    requires room { vec_len rows.old + 1 ≤ vec_capacity rows.old }
    requires row { IsRow row }
    requires rows { Each IsRow rows.old.items }
    ensures changed { map row_file rows.new.items ≡ changed (Change.Adds row) (map row_file rows.old.items) }
    ensures rows { Each IsRow rows.new.items }
{
    match rows.push(row) {
        Ok(()) => {}
        Err(_) => unreachable!(),
    }
}

/// Takes the file in a slot out, if there is one.
fn remove(rows: &mut Vec<FileRow>, slot: u32)
    requires rows { Each IsRow rows.old.items }
    ensures changed { map row_file rows.new.items ≡ without_file slot (map row_file rows.old.items) }
    ensures rows { Each IsRow rows.new.items }
{
    match position_of(rows, slot) {
        Some(at) => {
            let _ = rows.remove(at);
        }
        None => {}
    }
}
