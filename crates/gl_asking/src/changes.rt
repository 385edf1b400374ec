//! The open files after an operation.

ghost use Rattle.std.specs.Prelude.{◌≡◌, ℕ, ◌<◌, ◌^◌, List, Option, Some, true};
ghost use Rattle.gl_base.specs.declared.command.TheConstants.{GET_LINE};
ghost use Rattle.gl_base.specs.declared.limits.TheConstants.{PLACES};
ghost use Rattle.gl_base.specs.declared.lines.Lines.{Lines as SomeLines};
ghost use Rattle.gl_model.specs.Written.{number_answered};
ghost use Rattle.gl_model.specs.declared.reply.Reply.TheVariants.{Number};
ghost use Rattle.gl_asking.specs.Asking.{buffer_of, file_for, files_behind, lines_named, made_on, opened};
ghost use Rattle.gl_asking.specs.Changes.{AreSome, IsChange, NamesMade, OpensWithin, changed};
ghost use Rattle.gl_asking.specs.Files.{OpenFile, chip_file, with_file};
ghost use Rattle.gl_asking.specs.Opened.{opened_of, place_named};
ghost use Rattle.gl_asking.specs.declared.kinds.FileRow.{FileRow as RowOf};
ghost use Rattle.gl_asking.specs.Rows.{IsSomeRow, file_of, is_on_chip};

use crate::commanding::lines_named;
use crate::kinds::{Answered, Change, FileKind, FileRow};
use gl_base::command::GET_LINE;
use gl_base::{Do, Path, chip_number};
use gl_model::Reply;
use gl_uapi::layout::LINE_REQUEST_SIZE;

/// The place that a word names: 0 where it names none.
pub fn place_named(word: &Path) -> u8
    requires { place_named word.now < PLACES }
    ensures { result ≡ place_named word.now }
{
    match chip_number(word.as_bytes()) {
        Some(number) => number as u8,
        None => 0,
    }
}

/// The row of a chip's file.
fn chip_row(slot: u32, place: u8, fd: u32) -> Change<FileRow>
    requires { place < PLACES }
    ensures row { IsChange result }
    ensures told { (files : List OpenFile) → changed result files ≡ with_file (chip_file slot place fd) files }
{
    Change::Adds(FileRow {
        slot,
        place,
        fd,
        kind: FileKind::Chip,
    })
}

/// A chip that was opened into a slot. A reply of another form doesn't come.
fn opened(slot: u32, word: &Path, reply: Reply) -> Change<FileRow>
    requires number { number_answered reply < 2 ^ 32 }
    requires place { (fd : ℕ) → reply ≡ Number fd → place_named word.now < PLACES }
    ensures row { IsChange result }
    ensures told { (files : List OpenFile) → opened slot (opened_of word.now reply) files ≡ changed result files }
{
    match reply {
        Reply::Refused(_) => Change::Stays,
        Reply::Number(number) => chip_row(slot, place_named(word), number as u32),
        _ => chip_row(slot, 0, 0),
    }
}

/// A request of the lines that were asked for, which was made on a file, into a slot.
fn made(slot: u32, row: Option<FileRow>, answered: &Answered) -> Change<FileRow>
    requires number { number_answered answered.now.reply < 2 ^ 32 }
    requires row { IsSomeRow row }
    requires lines { (fd : ℕ) → answered.now.reply ≡ Number fd → is_on_chip row ≡ true → AreSome answered.now.lines }
    ensures row { IsChange result }
    ensures told { (files : List OpenFile) (lines : SomeLines) → ((fd : ℕ) → answered.now.reply ≡ Number fd → is_on_chip row ≡ true → answered.now.lines ≡ Some lines)
        → made_on slot (file_of row) lines answered.now.reply files ≡ changed result files }
{
    match (row, answered.reply, answered.lines) {
        (
            Some(
                FileRow {
                    place,
                    kind: FileKind::Chip,
                    ..
                },
            ),
            Reply::Number(number),
            Some(lines),
        ) => Change::Adds(FileRow {
            slot,
            place,
            fd: number as u32,
            kind: FileKind::Request(lines),
        }),
        _ => Change::Stays,
    }
}

/// What a command was answered, with the lines that its structure names where it made a request.
fn command_answered(cmd: u32, len: u32, bytes: &[u8; LINE_REQUEST_SIZE], reply: Reply) -> Answered
    ensures reply { result.reply ≡ reply }
    ensures lines { cmd ≡ GET_LINE → (fd : ℕ) → reply ≡ Number fd → result.lines ≡ Some (lines_named (buffer_of len bytes.now)) }
{
    if cmd != GET_LINE {
        return Answered::without_lines(reply);
    }
    match reply {
        Reply::Number(_) => Answered {
            reply,
            lines: Some(lines_named(len, bytes)),
        },
        _ => Answered::without_lines(reply),
    }
}

/// What an operation was answered, where its reply alone is known, as to who reads a history: the lines that it asked for are read out of
/// its bytes.
pub fn answered_by(what: &Do, reply: Reply) -> Answered
    ensures reply { result.reply ≡ reply }
    ensures named { (row : Option RowOf) → NamesMade what.now row result }
{
    match what {
        Do::Ioctl {
            cmd,
            len,
            bytes,
            ..
        } => command_answered(*cmd, *len, bytes, reply),
        _ => Answered::without_lines(reply),
    }
}

/// What becomes of the open files by an operation on this file that was answered so. A file that was to be closed is gone, whatever the
/// reply; the lines of a new request are those that were asked for.
pub fn files_behind(what: &Do, row: Option<FileRow>, answered: &Answered) -> Change<FileRow>
    requires within { OpensWithin what.now answered.now.reply }
    requires named { NamesMade what.now row answered.now }
    requires row { IsSomeRow row }
    ensures row { IsChange result }
    ensures told { (files : List OpenFile) → file_for what.now files ≡ file_of row → files_behind what.now answered.now.reply files ≡ changed result files }
{
    match what {
        Do::OpenChip { slot, word } => opened(*slot, word, answered.reply),
        Do::Ioctl {
            cmd,
            made: slot,
            ..
        } => {
            if *cmd == GET_LINE {
                made(*slot, row, answered)
            } else {
                Change::Stays
            }
        }
        Do::Close { slot } => Change::Removes(*slot),
        _ => Change::Stays,
    }
}
