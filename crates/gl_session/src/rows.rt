//! The open files of a talk, by the slots that its operations name.
//!
//! A row has the lines of its request, some 270 bytes in all. Each has memory of its own, so that where one is taken out the others
//! stay where they are, and just their addresses move up.

ghost use Rattle.std.specs.Prelude.{◌≡◌, [], List, false, is_some, map, OnOk, OnErr, IsOkUnless};
ghost use Rattle.std.specs.List.{position};
ghost use Rattle.gl_asking.specs.Asking.{file_for};
ghost use Rattle.gl_asking.specs.Changes.{IsChange, changed};
ghost use Rattle.gl_asking.specs.Files.{OpenFile, file_in, without_file};
ghost use Rattle.gl_asking.specs.Rows.{IsRow, IsSomeRow, file_of};
ghost use Rattle.gl_base.specs.Rows.{Each};
ghost use Rattle.gl_chip.specs.Held.{is_given_up, row_in};
ghost use Rattle.gl_session.specs.Asked.{given_up_by, left_for};
ghost use Rattle.gl_session.specs.Player.{IsBoxedRow, boxed_file, is_boxed_row};

use gl_asking::{Change, slot_named};
use gl_base::{Do, Errno};
use gl_chip::{Handed, HeldFile};
use std::alloc::Global;
use std::marker::Model;

/// The open files of a talk. Contracts see what the rows stand for.
#[derive(Drop)]
pub struct Rows {
    rows: Vec<Box<HeldFile>>,
}

impl Model for Rows {
    ghost use Rattle.std.specs.Prelude.{List, map};
    ghost use Rattle.gl_base.specs.Rows.{Each};
    ghost use Rattle.gl_asking.specs.Files.{OpenFile};
    ghost use Rattle.gl_session.specs.Player.{IsBoxedRow, boxed_file};

    ghost Value = { List OpenFile };

    ghost view = { λ r. map boxed_file r.rows.items };

    ghost invariant = { λ r. Each IsBoxedRow r.rows.items };
}

impl Rows {
    /// No file is open.
    pub fn new(alloc: Global) -> Rows
        ensures { result ≡ [] }
    {
        Rows {
            rows: Vec::new(alloc),
        }
    }

    /// Lends the file in a slot, if there is one.
    pub fn in_slot(&self, slot: u32) -> Handed<'_>
        ensures found { file_of (row_in result) ≡ file_in slot self.now }
        ensures row { IsSomeRow (row_in result) }
        ensures lent { is_given_up result ≡ false }
    {
        row_in(&self.rows, slot)
    }

    /// Takes out the file that an operation closes, if it closes one and it is there.
    pub fn give_up(&mut self, what: &Do) -> Option<HeldFile>
        ensures given { file_of result ≡ given_up_by what.now self.old }
        ensures row { IsSomeRow result }
        ensures left { self.new ≡ left_for what.now self.old }
    {
        match what {
            Do::Close { slot } => take(&mut self.rows, *slot),
            _ => None,
        }
    }

    /// The file that an operation names, as its call has it: given up where it was taken out for that, else lent, if it is there.
    pub fn handed(&self, what: &Do, given: Option<HeldFile>) -> Handed<'_>
        requires row { IsSomeRow given }
        ensures found { (files : List OpenFile) → self.now ≡ left_for what.now files → file_of given ≡ given_up_by what.now files → file_for what.now files ≡ file_of (row_in result) }
        ensures row { IsSomeRow (row_in result) }
        ensures given_up { is_given_up result ≡ is_some given }
    {
        match given {
            Some(file) => Handed::GivenUp(file),
            None => self.lent(what),
        }
    }

    /// Lends the file that an operation names, if it names one and it is there.
    fn lent(&self, what: &Do) -> Handed<'_>
        ensures found { file_for what.now self.now ≡ file_of (row_in result) }
        ensures row { IsSomeRow (row_in result) }
        ensures lent { is_given_up result ≡ false }
    {
        row_for(&self.rows, what)
    }

    /// Makes a change. `NoMemory` where a file more finds none.
    pub fn change(&mut self, change: Change<HeldFile>) -> Result<(), Errno>
        requires change { IsChange change }
        ensures changed { OnOk result (self.new ≡ changed change self.old) }
        ensures unchanged { OnErr result (self.new ≡ self.old) }
        ensures memory_alone { IsOkUnless result Errno.NoMemory }
    {
        make(&mut self.rows, change)
    }
}

/// Where the file in a slot stands.
fn position_of(rows: &[Box<HeldFile>], slot: u32) -> Option<usize>
    ensures { result ≡ position (is_boxed_row slot) rows.now }
{
    rows.iter().position(|row| row.row().slot() == slot)
}

/// Lends the file in a slot, if there is one.
fn row_in(rows: &[Box<HeldFile>], slot: u32) -> Handed<'_>
    requires { Each IsBoxedRow rows.now }
    ensures found { file_of (row_in result) ≡ file_in slot (map boxed_file rows.now) }
    ensures row { IsSomeRow (row_in result) }
    ensures lent { is_given_up result ≡ false }
{
    match position_of(rows, slot) {
        Some(at) => Handed::Lent(&*rows[at]),
        None => Handed::Nothing,
    }
}

/// Lends the file that an operation names, if it names one and it is there.
fn row_for<'r>(rows: &'r [Box<HeldFile>], what: &Do) -> Handed<'r>
    requires { Each IsBoxedRow rows.now }
    ensures found { file_for what.now (map boxed_file rows.now) ≡ file_of (row_in result) }
    ensures row { IsSomeRow (row_in result) }
    ensures lent { is_given_up result ≡ false }
{
    match slot_named(what) {
        Some(slot) => row_in(rows, slot),
        None => Handed::Nothing,
    }
}

/// Makes a change in rows.
fn make(rows: &mut Vec<Box<HeldFile>>, change: Change<HeldFile>) -> Result<(), Errno>
    requires change { IsChange change }
    requires rows { Each IsBoxedRow rows.old.items }
    ensures changed { OnOk result (map boxed_file rows.new.items ≡ changed change (map boxed_file rows.old.items)) }
    ensures unchanged { OnErr result (rows.new.items ≡ rows.old.items) }
    ensures rows { Each IsBoxedRow rows.new.items }
    ensures memory_alone { IsOkUnless result Errno.NoMemory }
{
    match change {
        Change::Stays => Ok(()),
        Change::Adds(row) => add(rows, row),
        Change::Removes(slot) => {
            let _ = take(rows, slot);
            Ok(())
        }
    }
}

/// Adds a file.
fn add(rows: &mut Vec<Box<HeldFile>>, row: HeldFile) -> Result<(), Errno>
    requires row { IsRow row }
    requires rows { Each IsBoxedRow rows.old.items }
    ensures changed { OnOk result (map boxed_file rows.new.items ≡ changed (Change.Adds row) (map boxed_file rows.old.items)) }
    ensures unchanged { OnErr result (rows.new.items ≡ rows.old.items) }
    ensures rows { Each IsBoxedRow rows.new.items }
    ensures memory_alone { IsOkUnless result Errno.NoMemory }
{
    let boxed = match Box::new(*rows.allocator(), row) {
        Ok(boxed) => boxed,
        Err(_) => return Err(Errno::NoMemory),
    };
    match rows.push(boxed) {
        Ok(()) => Ok(()),
        Err(_) => Err(Errno::NoMemory),
    }
}

/// Takes the file in a slot out, if there is one.
fn take(rows: &mut Vec<Box<HeldFile>>, slot: u32) -> Option<HeldFile>
    requires rows { Each IsBoxedRow rows.old.items }
    ensures taken { file_of result ≡ file_in slot (map boxed_file rows.old.items) }
    ensures row { IsSomeRow result }
    ensures changed { map boxed_file rows.new.items ≡ without_file slot (map boxed_file rows.old.items) }
    ensures rows { Each IsBoxedRow rows.new.items }
{
    match position_of(rows, slot) {
        Some(at) => Some(Box::into_inner(rows.remove(at))),
        None => None,
    }
}
