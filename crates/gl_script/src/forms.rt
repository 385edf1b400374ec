//! The forms of words.
ghost use Rattle.std.specs.Prelude.{◌≡◌, true, Some};
ghost use Rattle.std.specs.List.{list_all};
ghost use Rattle.std.specs.Str.{bytes_eq};
ghost use Rattle.gl_base.specs.Label.{is_label_byte};
ghost use Rattle.gl_base.specs.Path.{path_of};
ghost use Rattle.gl_script.specs.Forms.{meets, is_one_of, is_of, is_path_byte, is_there, within, number_within, held_tools, file_name_of, has_any_names, label_in, tree_path_of};
ghost use Rattle.gl_script.specs.Left.{pin_word_of};
ghost use Rattle.gl_script.specs.Said.{chip_of, irq_of};

use crate::escaped::escaped_name;
use crate::table::Form;
use crate::version::Version;
use gl_base::{IrqDo, Name, Path, are_label_bytes, chip_number, command_number, read_decimal};

/// The greatest number of a chip that a word may have.
const CHIP_MAX: u64 = 63;

/// What is done with the pins of a chip, by the word behind `pin`.
#[derive(Clone, Copy)]
pub enum PinWord {
    /// `range`.
    Range,
    /// `hold`.
    Hold,
    /// `drop`.
    Drop,
}

/// Whether a word is of a form.
pub fn meets(form: Form, word: &[u8]) -> bool
    ensures { result ≡ meets form word.now }
{
    match form {
        Form::FileName => is_label(word, 15),
        Form::Label(version) => label_in(version, word).is_some(),
        Form::Path => is_path(word),
        Form::Number { low, high } => number_within(low, high, word).is_some(),
        Form::Chip => within(0, CHIP_MAX, chip_number(word)).is_some(),
        Form::Word => word.len() <= 127,
        Form::Command => command_number(word).is_some(),
        Form::OldCommand => gl_v1::command_number(word).is_some(),
        Form::PinWord => pin_word_of(word).is_some(),
        Form::IrqWord => irq_of(word).is_some(),
        Form::HeldTool => is_held_tool(word),
    }
}

/// The name of a file or a tool, by its word.
#[tactic(auto, using(crate::proofs::TypedWords::file_name_fits))]
pub fn file_name(word: &[u8]) -> Name
    requires { meets Form.FileName word.now ≡ true }
    ensures { file_name_of word.now ≡ Some result }
{
    Name::filled(word)
}

/// The label or the value that a word says in a session of this version, if it says one.
#[tactic(auto, using(crate::proofs::TypedWords::label_fits))]
pub fn label_in(version: Version, word: &[u8]) -> Option<Name>
    ensures { result ≡ label_in version word.now }
{
    if is_label(word, 31) {
        return Some(Name::filled(word));
    }
    if has_any_names(version) {
        return escaped_name(word);
    }
    None
}

/// Whether labels and values may have any bytes but 0 in a session of this version.
fn has_any_names(version: Version) -> bool
    ensures { result ≡ has_any_names version }
{
    match version {
        Version::One | Version::Two => false,
        Version::Three => true,
    }
}

/// A path of the tree, by its word.
#[tactic(auto, using(crate::proofs::TypedWords::path_fits))]
pub fn tree_path(word: &[u8]) -> Path
    requires { meets Form.Path word.now ≡ true }
    ensures { tree_path_of word.now ≡ Some result }
{
    match Path::of(word) {
        Some(path) => path,
        None => unreachable!(),
    }
}

/// The word that names a chip.
#[tactic(auto, using(crate::proofs::TypedWords::word_fits))]
pub fn chip_word(word: &[u8]) -> Path
    requires { meets Form.Word word.now ≡ true }
    ensures { path_of word.now ≡ Some result }
{
    match Path::of(word) {
        Some(path) => path,
        None => unreachable!(),
    }
}

/// The number that a word is: 1 to 20 digits whose value is from `low` to `high`. None where it is none.
pub fn number_within(low: u64, high: u64, word: &[u8]) -> Option<u64>
    ensures { result ≡ number_within low high word.now }
{
    within(low, high, read_decimal(word))
}

fn within(low: u64, high: u64, number: Option<u64>) -> Option<u64>
    ensures { result ≡ within low high number }
{
    match number {
        Some(number) if low <= number && number <= high => Some(number),
        _ => None,
    }
}

/// The number of the chip that a word names.
pub fn chip_of(word: &[u8]) -> Option<u8>
    ensures { result ≡ chip_of word.now }
{
    chip_within(chip_number(word))
}

/// A number as that of a chip, if it is one.
fn chip_within(number: Option<u64>) -> Option<u8>
    ensures { result ≡ within 0 63 number }
{
    match number {
        Some(number) => {
            if number <= CHIP_MAX {
                return Some(number as u8);
            }
            None
        }
        None => None,
    }
}

/// What is done with an interrupt, by its word.
pub fn irq_of(word: &[u8]) -> Option<IrqDo>
    ensures { result ≡ irq_of word.now }
{
    if is_text(word, b"lock") {
        Some(IrqDo::Lock)
    } else if is_text(word, b"unlock") {
        Some(IrqDo::Unlock)
    } else if is_text(word, b"enable") {
        Some(IrqDo::Enable)
    } else if is_text(word, b"disable") {
        Some(IrqDo::Disable)
    } else if is_text(word, b"none") {
        Some(IrqDo::Never)
    } else {
        None
    }
}

/// What is done with pins, by the word behind `pin`.
pub fn pin_word_of(word: &[u8]) -> Option<PinWord>
    ensures { result ≡ pin_word_of word.now }
{
    if is_text(word, b"range") {
        Some(PinWord::Range)
    } else if is_text(word, b"hold") {
        Some(PinWord::Hold)
    } else if is_text(word, b"drop") {
        Some(PinWord::Drop)
    } else {
        None
    }
}

/// Whether a word names a tool that may be started.
fn is_held_tool(word: &[u8]) -> bool
    ensures { result ≡ is_one_of held_tools word.now }
{
    is_text(word, b"gpioset") || is_text(word, b"gpiomon") || is_text(word, b"gpionotify")
}

/// Whether a word is this text.
pub fn is_text(word: &[u8], text: &[u8]) -> bool
    ensures { result ≡ bytes_eq word.now text.now }
{
    word == text
}

fn is_label(word: &[u8], most: usize) -> bool
    ensures { result ≡ is_of is_label_byte most word.now }
{
    !word.is_empty() && word.len() <= most && are_label_bytes(word)
}

fn is_path(word: &[u8]) -> bool
    ensures { result ≡ is_of is_path_byte 127 word.now }
{
    !word.is_empty() && word.len() <= 127 && are_path_bytes(word)
}

fn are_path_bytes(word: &[u8]) -> bool
    ensures { result ≡ list_all is_path_byte word.now }
{
    word.iter().all(|byte| byte.is_ascii_alphanumeric()
        || *byte == b'_'
        || *byte == b'-'
        || *byte == b'.'
        || *byte == b'/')
}
