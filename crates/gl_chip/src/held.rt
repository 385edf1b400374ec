//! Open files as who carries operations out holds them: only the answer to a call of a device makes one, and a close uses it up.

ghost use Rattle.std.specs.Prelude.{◌≡◌, List};
ghost use Rattle.gl_asking.specs.Asking.{file_for, files_behind};
ghost use Rattle.gl_asking.specs.Changes.{IsChange, NamesMade, OpensWithin, changed};
ghost use Rattle.gl_asking.specs.Files.{OpenFile};
ghost use Rattle.gl_asking.specs.Rows.{IsSomeRow, file_of};
ghost use Rattle.gl_chip.specs.Held.{IsCallOf, row_in};

use crate::orders::Order;
use gl_asking::{Answered, Change, FileKind, FileRow};
use gl_base::Do;
use gl_model::Reply;
use std::marker::Model;

/// An open file of a device, as its holder has it: a row, which `files_behind` alone makes, of a device's answer. Who acts on a file by `Gpio::call`
/// lends it, and who closes it gives it up, as a handle. One that is let go of stays open in the device. Contracts see the row.
#[derive(Drop)]
pub struct HeldFile {
    row: FileRow,
}

impl Model for HeldFile {
    ghost use Rattle.gl_asking.specs.declared.kinds.FileRow.{FileRow};

    ghost Value = { FileRow };

    ghost view = { λ file. file.row };
}

impl HeldFile {
    ghost use Rattle.std.specs.Prelude.{◌≡◌};

    /// Its row.
    pub fn row(&self) -> &FileRow
        ensures { result.now ≡ self.now }
    {
        &self.row
    }
}

/// What is handed in of the file that a call acts on.
#[derive(Drop)]
pub enum Handed<'f> {
    /// Nothing: it acts on none.
    Nothing,
    /// The file is lent.
    Lent(&'f HeldFile),
    /// The file is given up, to a close.
    GivenUp(HeldFile),
}

impl Handed<'_> {
    ghost use Rattle.std.specs.Prelude.{◌≡◌};
    ghost use Rattle.gl_chip.specs.Held.{given_up_in, kind_in, row_in};

    /// The row of the file, where there is one.
    pub fn row(&self) -> Option<FileRow>
        ensures { result ≡ row_in self.now }
    {
        match self {
            Handed::Nothing => None,
            Handed::Lent(file) => Some(*file.row()),
            Handed::GivenUp(file) => Some(*file.row()),
        }
    }

    /// The file that was given up, if one was.
    pub(crate) fn into_given_up(self) -> Option<HeldFile>
        ensures { result ≡ given_up_in self.entry }
    {
        match self {
            Handed::GivenUp(file) => Some(file),
            Handed::Nothing | Handed::Lent(_) => None,
        }
    }

    /// What the file is of; a chip where there is none.
    pub(crate) fn kind(&self) -> FileKind
        ensures { result ≡ kind_in self.now }
    {
        match self {
            Handed::Nothing => FileKind::Chip,
            Handed::Lent(file) => file.row().kind(),
            Handed::GivenUp(file) => file.row().kind(),
        }
    }
}

/// What a call of a device was answered, and which call that was, on which file. `Gpio::call` alone makes one.
#[derive(Drop)]
pub struct Answer<'o> {
    /// The call, with its file.
    pub(crate) order: Order<'o>,
    /// The reply, and what goes with it.
    pub(crate) answered: Answered,
}

impl Answer<'_> {
    ghost use Rattle.std.specs.Prelude.{◌≡◌};
    ghost use Rattle.gl_chip.specs.Held.{given_back};

    /// The reply of its last entry.
    pub fn reply(&self) -> Reply
        ensures { result ≡ self.now.answered.reply }
    {
        self.answered.reply
    }

    /// The reply, and the lines of a request that was made.
    pub fn answered(&self) -> &Answered
        ensures { result.now ≡ self.now.answered }
    {
        &self.answered
    }

    /// The file of a close that was refused: it is as it was before. `None` of every other answer.
    pub fn into_file(self) -> Option<HeldFile>
        ensures { result ≡ given_back self.entry.order.file self.entry.answered.reply }
    {
        match self.answered.reply {
            Reply::Refused(_) => self.order.into_file(),
            _ => None,
        }
    }
}

/// What becomes of the open files by an operation whose call was answered so. A file that was to be closed is gone, whatever the reply; the lines
/// of a new request are those that were asked for. The answer is used up: it makes one file at most.
pub fn files_behind(what: &Do, answer: Answer<'_>) -> Change<HeldFile>
    requires asks { IsCallOf what.now (row_in answer.order.file) answer.order.call.now }
    requires within { OpensWithin what.now answer.answered.reply }
    requires named { NamesMade what.now (row_in answer.order.file) answer.answered }
    requires row { IsSomeRow (row_in answer.order.file) }
    ensures row { IsChange result }
    ensures told { (files : List OpenFile) → file_for what.now files ≡ file_of (row_in answer.entry.order.file) → files_behind what.now answer.entry.answered.reply files ≡ changed result files }
{
    match gl_asking::files_behind(what, answer.order.file.row(), &answer.answered) {
        Change::Stays => Change::Stays,
        Change::Adds(row) => Change::Adds(HeldFile { row }),
        Change::Removes(slot) => Change::Removes(slot),
    }
}
