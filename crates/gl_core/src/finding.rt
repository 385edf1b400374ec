//! Looking for lines by their names.

ghost use Rattle.std.specs.Prelude.{◌≡◌, ◌*◌, ◌+◌, ◌<◌, ◌≤◌, ◌^◌, ℕ, [], drop, length, slice_index_or, if◌then◌else◌};
ghost use Rattle.std.specs.List.{flat_map};
ghost use Rattle.std.specs.Str.{bytes_eq};
ghost use Rattle.gl_base.specs.declared.limits.TheConstants.{LINES_MAX};
ghost use Rattle.gl_desc.specs.Desc.{desc_at};
ghost use Rattle.gl_model.specs.Chips.{used_places};
ghost use Rattle.gl_registry.specs.Chips.{chip_at};
ghost use Rattle.gl_model.specs.Opening.{find_lines, named_at, named_from, searched};
ghost use Rattle.gl_model.specs.Places.{no_place};
ghost use Rattle.gl_core.specs.Steps.{Steps, Tells};

use crate::state::State;
use gl_base::{Errno, Name, PLACES, Phase};
use gl_desc::Descs;
use gl_model::Reply;

/// Lines that were found: the first by place and offset, and how many there are.
#[derive(Clone, Copy, PartialEq, Eq)]
pub struct LinesFound {
    /// The first line.
    pub first: Option<(u8, u32)>,
    /// How many lines there are.
    pub count: u32,
}

impl LinesFound {
    ghost use Rattle.gl_core.specs.FoundLines.{found_of, with_line, with_lines};

    /// No line yet.
    fn none() -> LinesFound
        ensures { result ≡ found_of [] }
    {
        LinesFound {
            first: None,
            count: 0,
        }
    }

    /// One line more, after the others.
    fn add(&mut self, place: u8, offset: u32)
        requires { self.old.count + 1 < 2 ^ 32 }
        ensures { self.new ≡ with_line (place, offset) self.old }
    {
        self.first = self.first.or(Some((place, offset)));
        self.count += 1;
    }

    /// One line of a place more, if it has this name.
    fn look(&mut self, place: u8, descs: &Descs, offset: u32, name: &Name)
        requires offset { offset < length descs.now }
        requires room { self.old.count + 1 < 2 ^ 32 }
        ensures found { self.new ≡ (if bytes_eq (desc_at descs.now offset).name name.now then with_line (place, offset) self.old else self.old) }
        ensures count { self.new.count ≤ self.old.count + 1 }
    {
        if descs.is_named(offset, name) {
            self.add(place, offset);
        }
    }
}

impl State {
    ghost use Rattle.gl_core.specs.FoundLines.{found_of, with_lines};

    /// Looks for the lines of a name on one chip or on all: the first in order of place and offset, and how many there are,
    /// among the chips that are up. `NoEnt` comes where no line has the name.
    pub(crate) fn find_lines(&self, place: Option<u8>, name: &Name) -> Reply
        ensures { Steps (find_lines place name.now) self.now self.now result }
    {
        let found = self.lines_named(place, name);
        match found.first {
            None => Reply::Refused(Errno::NoEnt),
            Some((place, offset)) => Reply::Found {
                place,
                offset,
                count: found.count,
            },
        }
    }

    /// The lines of a name on one chip or on all.
    fn lines_named(&self, place: Option<u8>, name: &Name) -> LinesFound
        ensures { Tells (λ w. found_of (flat_map (named_at name.now w) (searched place w))) self.now result }
    {
        let mut found = LinesFound::none();
        match place {
            Some(place) => self.look_at(place, name, &mut found),
            None => self.look_everywhere(name, &mut found),
        }
        found
    }

    /// Looks for lines on all chips.
    #[tactic(auto, using(crate::proofs::FindingLines::places_more, crate::proofs::FindingLines::places_all))]
    fn look_everywhere(&self, name: &Name, found: &mut LinesFound)
        requires { found.old.count ≡ 0 }
        ensures { Tells (λ w. with_lines (flat_map (named_at name.now w) (used_places w)) found.old) self.now found.new }
    {
        for place in 0..self.chips_made() {
            self.look_at(place, name, found);
        }
    }

    /// Looks for lines on the chip of a place, if it is up.
    fn look_at(&self, place: u8, name: &Name, found: &mut LinesFound)
        requires { found.old.count + LINES_MAX < 2 ^ 32 }
        ensures told { Tells (λ w. with_lines (named_at name.now w place) found.old) self.now found.new }
        ensures count { found.new.count ≤ found.old.count + LINES_MAX }
    {
        if self.chips.phase(place) == Phase::Up {
            self.look_through(place, name, found);
        }
    }

    /// How many of the first lines of a chip are to be looked at for a name. Of those after them none has it.
    #[tactic(auto, using(crate::proofs::FindingLines::none_left))]
    fn lines_to_search(&self, place: u8, name: &Name) -> u32
        ensures within { result ≤ (chip_at self.now.chips place).lines }
        ensures none_left { (i : ℕ) → result ≤ i
            → named_from name.now place i (drop i (slice_index_or self.now.places place no_place).descs) ≡ [] }
    {
        let lines = self.chips.lines(place);
        if lines == 0 || name.as_bytes().is_empty() {
            return lines;
        }
        let end = self.places.at(place).descs.names_end();
        if end >= lines as usize {
            return lines;
        }
        end as u32
    }

    /// Looks for lines on the chip of a place.
    #[tactic(auto, using(crate::proofs::FindingLines::named_more, crate::proofs::FindingLines::with_none))]
    fn look_through(&self, place: u8, name: &Name, found: &mut LinesFound)
        requires { found.old.count + LINES_MAX < 2 ^ 32 }
        ensures found { found.new ≡ with_lines (named_from name.now place 0 (slice_index_or self.now.places place no_place).descs) found.old }
        ensures count { found.new.count ≤ found.old.count + LINES_MAX }
    {
        for offset in 0..self.lines_to_search(place, name) {
            found.look(place, &self.places.at(place).descs, offset, name);
        }
    }

    /// How many chips were made.
    fn chips_made(&self) -> u8
        ensures { result ≡ length self.now.chips }
    {
        (u32::from(PLACES) - self.chips.left()) as u8
    }
}
