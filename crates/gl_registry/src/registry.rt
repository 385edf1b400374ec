//! The chips by place.
ghost use Rattle.std.specs.Prelude.{◌≡◌, ◌+◌, ◌≤◌, ◌↔◌, [], ◌∷◌, ◌++◌, length, vec_capacity, if◌then◌else◌, Some, None, IfOk, OnOk, OnErr, IsOkUnless};
ghost use Rattle.gl_base.specs.Positions.{change_at};
ghost use Rattle.gl_registry.specs.Chips.{chip_at, no_chip, new_chip, next_phase, moved_on, can_be_named, place_of_word};

use gl_base::{Errno, Name, PLACES, Phase, chip_number, push_within};
use std::alloc::Global;
use std::marker::Model;

/// One chip.
#[derive(Clone, Copy, PartialEq, Eq)]
pub struct Chip {
    /// What the chip is labelled (`linux/gpio.h`, `struct gpiochip_info`).
    pub label: Name,
    /// How many lines it has.
    pub lines: u32,
    /// How far it has come.
    pub phase: Phase,
}

/// The chips that were made so far, by place. Contracts see the list of them.
///
/// There are [`PLACES`] places. Each chip takes the next one, and none is ever used twice, which is this
/// project's choice.
#[derive(Drop)]
pub struct Registry {
    chips: Vec<Chip>,
}

impl Model for Registry {
    ghost use Rattle.std.specs.Prelude.{List, ◌≡◌, ◌≤◌, length, vec_capacity};
    ghost use Rattle.gl_base.specs.declared.limits.TheConstants.{PLACES};
    ghost use Rattle.gl_registry.specs.declared.registry.Chip.{Chip};

    ghost Value = { List Chip };

    ghost view = { λ r. r.chips.items };

    ghost invariant = { λ r. (length r.chips.items ≤ PLACES) × (vec_capacity r.chips ≡ PLACES) };
}

impl Registry {
    /// A registry without a chip. It takes the memory of all places.
    pub fn new(alloc: Global) -> Result<Registry, Errno>
        ensures ok { IfOk result (λ registry. registry ≡ []) }
        ensures memory_alone { IsOkUnless result Errno.NoMemory }
    {
        let chips = Vec::with_capacity(alloc, usize::from(PLACES))?;
        Ok(Registry { chips })
    }

    /// Makes a chip at the next place, which is up, and gives that place. `NoSpc` comes where all places
    /// were used. It takes no memory.
    pub fn add(&mut self, label: Name, lines: u32) -> Result<u8, Errno>
        ensures place { IfOk result (λ place. place ≡ length self.old) }
        ensures chip { OnOk result (self.new ≡ self.old ++ new_chip label lines ∷ []) }
        ensures no_space { (result ≡ Err Errno.NoSpc) ↔ (PLACES ≤ length self.old) }
        ensures no_space_alone { IsOkUnless result Errno.NoSpc }
        ensures err { OnErr result (self.new ≡ self.old) }
    {
        let place = self.chips.len();
        if place >= usize::from(PLACES) {
            return Err(Errno::NoSpc);
        }
        push_within(
            &mut self.chips,
            Chip {
                label,
                lines,
                phase: Phase::Up,
            },
        );
        Ok(place as u8)
    }

    /// The place of the chip that a word names, while that chip is up or leaving. The words of a chip are
    /// those of [`chip_number`].
    pub fn by_word(&self, word: &[u8]) -> Option<u8>
        ensures { result ≡ place_of_word self.now word.now }
    {
        match chip_number(word) {
            Some(number) => named_place(&self.chips, number),
            None => None,
        }
    }

    /// The phase of a place.
    pub fn phase(&self, place: u8) -> Phase
        ensures { result ≡ (chip_at self.now place).phase }
    {
        chip_at(&self.chips, usize::from(place)).phase
    }

    /// Moves the chip at a place one phase on: from up to leaving, or from leaving to gone. Any other
    /// place stays as it is.
    pub fn go_on(&mut self, place: u8)
        ensures { self.new ≡ change_at no_chip place moved_on self.old }
    {
        move_on(&mut self.chips, usize::from(place));
    }

    /// The label of the chip at a place; the empty name where no chip was made.
    pub fn label(&self, place: u8) -> Name
        ensures { result ≡ (chip_at self.now place).label }
    {
        chip_at(&self.chips, usize::from(place)).label
    }

    /// How many lines the chip at a place has; 0 where no chip was made.
    pub fn lines(&self, place: u8) -> u32
        ensures { result ≡ (chip_at self.now place).lines }
    {
        chip_at(&self.chips, usize::from(place)).lines
    }

    /// The chip at a place; one without label, lines and phase where no chip was made.
    pub fn chip(&self, place: u8) -> Chip
        ensures { result ≡ chip_at self.now place }
    {
        chip_at(&self.chips, usize::from(place))
    }

    /// How many chips the registry has room for. It is always all places, since no call but `new` takes
    /// memory.
    pub fn capacity(&self) -> u32
        ensures { result ≡ PLACES }
    {
        self.chips.capacity() as u32
    }

    /// How many places are left.
    pub fn left(&self) -> u32
        ensures { result + length self.now ≡ PLACES }
    {
        u32::from(PLACES) - self.chips.len() as u32
    }
}

/// The chip at a place.
fn chip_at(chips: &[Chip], place: usize) -> Chip
    ensures { result ≡ chip_at chips.now place }
{
    match chips.get(place) {
        Some(chip) => *chip,
        None => Chip {
            label: Name::empty(),
            lines: 0,
            phase: Phase::Absent,
        },
    }
}

/// The place of the chip of a number, if that can be named.
fn named_place(chips: &[Chip], number: u64) -> Option<u8>
    requires { length chips.now ≤ PLACES }
    ensures { result ≡ (if can_be_named (chip_at chips.now number).phase then Some number else None) }
{
    if can_be_named(chip_at(chips, number as usize).phase) {
        Some(number as u8)
    } else {
        None
    }
}

/// Whether a chip of this phase can be named.
fn can_be_named(phase: Phase) -> bool
    ensures { result ≡ can_be_named phase }
{
    matches!(phase, Phase::Up | Phase::Leaving)
}

/// The phase after this one.
fn next_phase(phase: Phase) -> Phase
    ensures { result ≡ next_phase phase }
{
    match phase {
        Phase::Absent => Phase::Absent,
        Phase::Up => Phase::Leaving,
        Phase::Leaving | Phase::Gone => Phase::Gone,
    }
}

/// Moves the chip at a place one phase on.
fn move_on(chips: &mut Vec<Chip>, place: usize)
    ensures chips { chips.new.items ≡ change_at no_chip place moved_on chips.old.items }
    ensures capacity { vec_capacity chips.new ≡ vec_capacity chips.old }
    ensures length { length chips.new.items ≡ length chips.old.items }
{
    if place < chips.len() {
        let chip = &mut chips[place];
        chip.phase = next_phase(chip.phase);
    }
}
