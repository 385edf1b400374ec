//! What an `aggregate` asks of the device.

ghost use Rattle.std.specs.Prelude.{◌≡◌, ◌+◌, ◌<◌, ◌≤◌, ◌^◌, ◌++◌, ◌∷◌, ◌||◌, [], false, length, map, take, is_some, not, option_map};
ghost use Rattle.std.specs.List.{list_any};
ghost use Rattle.gl_base.specs.Padded.{IsPadded, padded};
ghost use Rattle.gl_base.specs.Words.{words_at};
ghost use Rattle.gl_script.specs.declared.limits.TheConstants.{JOINED_MAX};
ghost use Rattle.gl_talk.specs.Actions.{files_named, slots_of};
ghost use Rattle.gl_talk.specs.Copied.{words_of};
ghost use Rattle.gl_talk.specs.Open.{file_in, is_chip_file};
ghost use Rattle.gl_talk.specs.SaidActions.{aggregates_said};
ghost use Rattle.gl_talk.specs.Words.{behind_two};

use crate::actions::{SaidAction, SaidFormat, refuses};
use crate::copied::CopiedStatement;
use crate::files::{TalkFile, file_of, is_chip};
use crate::words::behind_two;
use gl_base::{Do, Errno, Name, next_word};
use gl_script::{JOINED_MAX, Said};
use std::marker::Model;

/// The slots of requests, so many at most. Contracts see them as a list.
#[derive(Drop)]
struct Slots {
    count: u32,
    slots: [u32; JOINED_MAX as usize],
}

impl Model for Slots {
    ghost use Rattle.std.specs.Prelude.{List, ℕ, take};
    ghost use Rattle.gl_base.specs.Padded.{IsPadded};
    ghost use Rattle.gl_script.specs.declared.limits.TheConstants.{JOINED_MAX};

    ghost Value = { List ℕ };

    ghost view = { λ named. take named.count named.slots };

    ghost invariant = { λ named. IsPadded JOINED_MAX named.count named.slots };
}

impl Slots {
    /// No slot.
    fn none() -> Slots
        ensures { result ≡ [] }
    {
        Slots {
            count: 0,
            slots: [0; JOINED_MAX as usize],
        }
    }

    /// A slot more.
    fn put(&mut self, slot: u32)
        requires { length self.old < JOINED_MAX }
        ensures { self.new ≡ self.old ++ slot ∷ [] }
    {
        self.slots = with_slot(&self.slots, self.count, slot);
        self.count += 1;
    }

    /// A chip of this label over them is asked for.
    fn joined(&self, label: &Name) -> SaidAction
        ensures { result ≡ SaidAction.Ask (Do.Aggregate label.now (padded JOINED_MAX self.now) (length self.now)) SaidFormat.Silent }
    {
        let slots = self.slots;
        let count = self.count;
        SaidAction::Ask(
            Do::Aggregate {
                label: *label,
                slots,
                count,
            },
            SaidFormat::Silent,
        )
    }
}

/// One slot more.
fn with_slot(
    slots: &[u32; JOINED_MAX as usize],
    count: u32,
    slot: u32,
) -> [u32; JOINED_MAX as usize]
    requires few { count < JOINED_MAX }
    requires padded { IsPadded JOINED_MAX count slots.now }
    ensures padded { IsPadded JOINED_MAX (count + 1) result }
    ensures last { take (count + 1) result ≡ take count slots.now ++ slot ∷ [] }
{
    let mut slots = *slots;
    slots[count as usize] = slot;
    slots
}

/// What the names of a statement come to.
#[derive(Drop)]
struct Named {
    /// Whether one of them has no file.
    one_missing: bool,
    /// Whether one of them has a chip's file.
    one_a_chip: bool,
    /// The slots of their files, in order; a name without a file has none.
    slots: Slots,
}

impl Named {
    /// No name.
    fn none() -> Named
        ensures missing { result.one_missing ≡ false }
        ensures chip { result.one_a_chip ≡ false }
        ensures slots { result.slots ≡ [] }
    {
        Named {
            one_missing: false,
            one_a_chip: false,
            slots: Slots::none(),
        }
    }

    /// A name more, which has this file.
    fn put(&mut self, file: &Option<TalkFile>)
        requires { length self.old.slots < JOINED_MAX }
        ensures missing { self.new.one_missing ≡ (self.old.one_missing || not (is_some (option_map file_in file.now))) }
        ensures chip { self.new.one_a_chip ≡ (self.old.one_a_chip || is_chip_file (option_map file_in file.now)) }
        ensures slots { self.new.slots ≡ self.old.slots ++ slots_of (option_map file_in file.now ∷ []) }
    {
        match file {
            Some(file) => {
                self.one_a_chip = self.one_a_chip || is_chip(file.kind);
                self.slots.put(file.slot);
            }
            None => self.one_missing = true,
        }
    }
}

/// What is asked for: a chip over the requests of the statement's names.
pub fn aggregates(label: &Name, files: &[TalkFile], line: &CopiedStatement) -> SaidAction
    requires { line.now.said ≡ Said.Aggregate label.now }
    ensures { result ≡ aggregates_said label.now (files_named JOINED_MAX (behind_two (words_of line.now)) (map file_in files.now)) }
{
    let names = behind_two(&line.line);
    let named = all_named(files, names.at, names.line);
    if named.one_missing {
        return refuses(Errno::BadF);
    }
    if named.one_a_chip {
        return refuses(Errno::Inval);
    }
    named.slots.joined(label)
}

/// What the names come to.
fn all_named(files: &[TalkFile], at: usize, line: &[u8]) -> Named
    requires long { at + length line.now + 1 < 2 ^ 64 }
    requires few { length (words_at at line.now) ≤ JOINED_MAX }
    ensures missing { result.one_missing ≡ list_any (λ file. not (is_some file)) (files_named JOINED_MAX (words_at at line.now) (map file_in files.now)) }
    ensures chip { result.one_a_chip ≡ list_any is_chip_file (files_named JOINED_MAX (words_at at line.now) (map file_in files.now)) }
    ensures slots { result.slots ≡ slots_of (files_named JOINED_MAX (words_at at line.now) (map file_in files.now)) }
{
    let mut named = Named::none();
    let mut at = at;
    let mut rest = line;
    while let Some(found) = next_word(at, rest) {
        named.put(&file_of(files, found.word));
        at = found.rest_at;
        rest = found.rest;
    }
    named
}
