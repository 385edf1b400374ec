//! The words of a statement, read one after the other, each once.
ghost use Rattle.std.specs.Prelude.{◌≡◌, ℕ, ◌+◌, ◌<◌, ◌≤◌, ◌^◌, [], ◌∷◌, length, true, false, IfOk, IfErr, OnOk, MatchOption, Some, Ok, Err};
ghost use Rattle.gl_base.specs.CommandWord.{command_number_of};
ghost use Rattle.gl_base.specs.Path.{path_of};
ghost use Rattle.gl_base.specs.Words.{span, words_at};
ghost use Rattle.gl_v1.specs.Words.{old_number_of};
ghost use Rattle.gl_script.specs.Faults.{spot};
ghost use Rattle.gl_script.specs.Forms.{file_name_of, label_in, label_of, meets, number_within, tree_path_of};
ghost use Rattle.gl_script.specs.Left.{AreNames, ArePieces, IsEnd, IsShort, Reads, left_in, misread, pin_word_of};
ghost use Rattle.gl_script.specs.Said.{chip_of, irq_of};

use crate::faults::{bytes_read, names_fault, spot};
use crate::forms::{
    PinWord, chip_of, chip_word, file_name, irq_of, label_in, meets, number_within, pin_word_of,
    tree_path,
};
use crate::refusal::{RefusalKind, Spot};
use crate::table::Form;
use crate::version::Version;
use gl_base::{Found, IrqDo, Name, Path, command_number, next_word};

/// What is left of a statement's line.
#[derive(Clone, Copy)]
pub struct Cursor<'a> {
    /// Where the word before ends.
    pub end: usize,
    /// Where what is left begins.
    pub at: usize,
    /// What is left.
    pub rest: &'a [u8],
}

impl<'a> Cursor<'a> {
    /// What is left behind a word.
    pub fn behind(word: &Found<'a>) -> Cursor<'a>
        requires word { word.now.at + length word.now.word.now < 2 ^ 32 }
        requires rest { word.now.rest_at + length word.now.rest.now + 1 < 2 ^ 32 }
        ensures left { left_in result ≡ record { end = word.now.at + length word.now.word.now; words = words_at word.now.rest_at word.now.rest.now } }
        ensures short { IsShort result }
    {
        Cursor {
            end: word.at + word.word.len(),
            at: word.rest_at,
            rest: word.rest,
        }
    }

    /// The next word, or that it is missing.
    fn next(&mut self) -> Result<Found<'a>, Spot>
        requires { IsShort self.old }
        ensures found { IfOk result (λ found. ((left_in self.old).words ≡ span found.at found.word.now ∷ (left_in self.new).words) × (self.new.end ≡ found.at + length found.word.now) × (found.at < 2 ^ 32)) }
        ensures missing { IfErr result (λ fault. ((left_in self.old).words ≡ []) × (fault ≡ spot self.old.end RefusalKind.Words)) }
        ensures short { OnOk result (IsShort self.new) }
    {
        match next_word(self.at, self.rest) {
            Some(found) => {
                self.end = found.at + found.word.len();
                self.at = found.rest_at;
                self.rest = found.rest;
                Ok(found)
            }
            None => Err(spot(self.end, RefusalKind::Words)),
        }
    }

    /// The next word, which is of a form; or its fault.
    fn of_form(&mut self, form: Form) -> Result<&'a [u8], Spot>
        requires { IsShort self.old }
        ensures word { IfOk result (λ word. (at : ℕ) × ((left_in self.old).words ≡ span at word.now ∷ (left_in self.new).words) × (self.new.end ≡ at + length word.now) × (meets form word.now ≡ true)) }
        ensures fault { IfErr result (λ fault. misread form (left_in self.old).end (left_in self.old).words ≡ Some fault) }
        ensures short { OnOk result (IsShort self.new) }
    {
        match self.next() {
            Ok(found) => formed(form, found.at, found.word),
            Err(fault) => Err(fault),
        }
    }

    /// A word that stands for itself.
    pub fn text(&mut self, form: Form) -> Result<(), Spot>
        requires { IsShort self.old }
        ensures read { Reads form (λ word. Some tt) (left_in self.old) (left_in self.new) result }
        ensures short { OnOk result (IsShort self.new) }
    {
        match self.of_form(form) {
            Ok(_word) => Ok(()),
            Err(fault) => Err(fault),
        }
    }

    /// The name of a file or a tool.
    pub fn file_name(&mut self) -> Result<Name, Spot>
        requires { IsShort self.old }
        ensures read { Reads Form.FileName file_name_of (left_in self.old) (left_in self.new) result }
        ensures short { OnOk result (IsShort self.new) }
    {
        match self.of_form(Form::FileName) {
            Ok(word) => Ok(file_name(word)),
            Err(fault) => Err(fault),
        }
    }

    /// A label or a value of a session of this version.
    pub fn label(&mut self, version: Version) -> Result<Name, Spot>
        requires { IsShort self.old }
        ensures read { Reads (Form.Label version) label_of (left_in self.old) (left_in self.new) result }
        ensures short { OnOk result (IsShort self.new) }
    {
        match self.next() {
            Ok(found) => or_misread(found.at, label_in(version, found.word)),
            Err(fault) => Err(fault),
        }
    }

    /// A path of the tree.
    pub fn path(&mut self) -> Result<Path, Spot>
        requires { IsShort self.old }
        ensures read { Reads Form.Path tree_path_of (left_in self.old) (left_in self.new) result }
        ensures short { OnOk result (IsShort self.new) }
    {
        match self.of_form(Form::Path) {
            Ok(word) => Ok(tree_path(word)),
            Err(fault) => Err(fault),
        }
    }

    /// A word that names a chip.
    pub fn chip_word(&mut self) -> Result<Path, Spot>
        requires { IsShort self.old }
        ensures read { Reads Form.Word path_of (left_in self.old) (left_in self.new) result }
        ensures short { OnOk result (IsShort self.new) }
    {
        match self.of_form(Form::Word) {
            Ok(word) => Ok(chip_word(word)),
            Err(fault) => Err(fault),
        }
    }

    /// A number from `low` to `high`.
    pub fn number(&mut self, low: u64, high: u64) -> Result<u64, Spot>
        requires { IsShort self.old }
        ensures read { Reads (Form.Number low high) (number_within low high) (left_in self.old) (left_in self.new) result }
        ensures short { OnOk result (IsShort self.new) }
    {
        match self.next() {
            Ok(found) => or_misread(found.at, number_within(low, high, found.word)),
            Err(fault) => Err(fault),
        }
    }

    /// A number of 32 bits.
    pub fn small(&mut self, low: u32, high: u32) -> Result<u32, Spot>
        requires { IsShort self.old }
        ensures read { Reads (Form.Number low high) (number_within low high) (left_in self.old) (left_in self.new) result }
        ensures short { OnOk result (IsShort self.new) }
    {
        match self.number(u64::from(low), u64::from(high)) {
            Ok(number) => Ok(number as u32),
            Err(fault) => Err(fault),
        }
    }

    /// A number of 16 bits.
    pub fn short(&mut self, high: u16) -> Result<u16, Spot>
        requires { IsShort self.old }
        ensures read { Reads (Form.Number 0 high) (number_within 0 high) (left_in self.old) (left_in self.new) result }
        ensures short { OnOk result (IsShort self.new) }
    {
        match self.number(0, u64::from(high)) {
            Ok(number) => Ok(number as u16),
            Err(fault) => Err(fault),
        }
    }

    /// The number of a chip.
    pub fn chip(&mut self) -> Result<u8, Spot>
        requires { IsShort self.old }
        ensures read { Reads Form.Chip chip_of (left_in self.old) (left_in self.new) result }
        ensures short { OnOk result (IsShort self.new) }
    {
        match self.next() {
            Ok(found) => or_misread(found.at, chip_of(found.word)),
            Err(fault) => Err(fault),
        }
    }

    /// The number of a command.
    pub fn command(&mut self) -> Result<u32, Spot>
        requires { IsShort self.old }
        ensures read { Reads Form.Command command_number_of (left_in self.old) (left_in self.new) result }
        ensures short { OnOk result (IsShort self.new) }
    {
        match self.next() {
            Ok(found) => or_misread(found.at, command_number(found.word)),
            Err(fault) => Err(fault),
        }
    }

    /// The number of a command of the first uAPI.
    pub fn old_command(&mut self) -> Result<u32, Spot>
        requires { IsShort self.old }
        ensures read { Reads Form.OldCommand old_number_of (left_in self.old) (left_in self.new) result }
        ensures short { OnOk result (IsShort self.new) }
    {
        match self.next() {
            Ok(found) => or_misread(found.at, gl_v1::command_number(found.word)),
            Err(fault) => Err(fault),
        }
    }

    /// What is done with an interrupt.
    pub fn irq(&mut self) -> Result<IrqDo, Spot>
        requires { IsShort self.old }
        ensures read { Reads Form.IrqWord irq_of (left_in self.old) (left_in self.new) result }
        ensures short { OnOk result (IsShort self.new) }
    {
        match self.next() {
            Ok(found) => or_misread(found.at, irq_of(found.word)),
            Err(fault) => Err(fault),
        }
    }

    /// What is done with pins.
    pub fn pin(&mut self) -> Result<PinWord, Spot>
        requires { IsShort self.old }
        ensures read { Reads Form.PinWord pin_word_of (left_in self.old) (left_in self.new) result }
        ensures short { OnOk result (IsShort self.new) }
    {
        match self.next() {
            Ok(found) => or_misread(found.at, pin_word_of(found.word)),
            Err(fault) => Err(fault),
        }
    }

    /// No word is left.
    pub fn no_more(&self) -> Result<(), Spot>
        requires { IsShort self.now }
        ensures { IsEnd (left_in self.now) result }
    {
        match next_word(self.at, self.rest) {
            Some(found) => Err(spot(found.at, RefusalKind::Words)),
            None => Ok(()),
        }
    }

    /// At most so many further names of files, and no more.
    pub fn file_names(&self, most: u32) -> Result<(), Spot>
        requires { IsShort self.now }
        ensures { AreNames most (left_in self.now) result }
    {
        match names_fault(most, self.at, self.rest) {
            Some(fault) => Err(fault),
            None => Ok(()),
        }
    }

    /// Pieces of bytes, or `-`; then `as NAME` exactly where a file is made: its name.
    pub fn pieces(&self, makes: bool) -> Result<Option<Name>, Spot>
        requires { IsShort self.now }
        ensures { ArePieces makes (left_in self.now) result }
    {
        bytes_read(makes, self.end, self.at, self.rest)
    }
}

/// A word of a form; or its fault.
fn formed<'a>(form: Form, at: usize, word: &'a [u8]) -> Result<&'a [u8], Spot>
    requires { at < 2 ^ 32 }
    ensures ok { IfOk result (λ found. (meets form word.now ≡ true) × (found.now ≡ word.now)) }
    ensures fault { IfErr result (λ fault. (meets form word.now ≡ false) × (fault ≡ spot at RefusalKind.Word)) }
{
    if meets(form, word) {
        Ok(word)
    } else {
        Err(spot(at, RefusalKind::Word))
    }
}

/// What a word is read as, if it is anything; or its fault.
fn or_misread<A: Copy>(at: usize, value: Option<A>) -> Result<A, Spot>
    requires { at < 2 ^ 32 }
    ensures { MatchOption value (result ≡ Err (spot at RefusalKind.Word)) (λ value. result ≡ Ok value) }
{
    match value {
        Some(value) => Ok(value),
        None => Err(spot(at, RefusalKind::Word)),
    }
}
