//! The words of a session that stand for commands of the first uAPI.

ghost use Rattle.std.specs.Prelude.{◌≡◌};
ghost use Rattle.gl_v1.specs.Words.{hex_number_of, makes, makes_file, old_number_of};

use crate::commands::{
    CommandV1, HANDLE_GET_VALUES, HANDLE_SET_CONFIG, HANDLE_SET_VALUES, KindV1, LINE_EVENT,
    LINE_HANDLE, LINE_INFO,
};
use gl_base::command::GET_CHIPINFO;

/// The number of the command that a word of a session stands for: one of seven names, as `LINEHANDLE`, or `0x` and
/// eight hexadecimal digits in either case, which may be any number. The names are this project's choice. None where a
/// word is neither.
pub fn command_number(word: &[u8]) -> Option<u32>
    ensures { result ≡ old_number_of word.now }
{
    if word == b"CHIPINFO".as_slice() {
        Some(GET_CHIPINFO)
    } else if word == b"LINEINFO".as_slice() {
        Some(LINE_INFO)
    } else if word == b"LINEHANDLE".as_slice() {
        Some(LINE_HANDLE)
    } else if word == b"LINEEVENT".as_slice() {
        Some(LINE_EVENT)
    } else if word == b"GET_VALUES".as_slice() {
        Some(HANDLE_GET_VALUES)
    } else if word == b"SET_VALUES".as_slice() {
        Some(HANDLE_SET_VALUES)
    } else if word == b"SET_CONFIG".as_slice() {
        Some(HANDLE_SET_CONFIG)
    } else {
        hex_number(word)
    }
}

/// The number that `0x` and eight hexadecimal digits write.
fn hex_number(word: &[u8]) -> Option<u32>
    ensures { result ≡ hex_number_of word.now }
{
    if word.starts_with(b"0x") {
        return gl_base::command_number(word);
    }
    None
}

/// Whether the command of that number makes a file where it succeeds.
pub fn makes_file(number: Option<u32>) -> bool
    ensures { result ≡ makes_file number }
{
    match number {
        Some(number) => makes(CommandV1::of(KindV1::Chip, number)),
        None => false,
    }
}

/// Whether a command makes a file.
fn makes(command: Option<CommandV1>) -> bool
    ensures { result ≡ makes command }
{
    match command {
        Some(CommandV1::LineHandle | CommandV1::LineEvent) => true,
        Some(
            CommandV1::ChipInfo
            | CommandV1::LineInfo
            | CommandV1::GetValues
            | CommandV1::SetValues
            | CommandV1::SetConfig,
        )
        | None => false,
    }
}
