//! The pins of one chip.
ghost use Rattle.std.specs.Prelude.{◌≡◌, ◌<◌, ◌≤◌, [], false, length, vec_capacity, IfNone, IfOk, IfSome, OnOk, OnErr, IsOkUnless, IsTrue};
ghost use Rattle.std.specs.List.{list_any, position};
ghost use Rattle.std.specs.Option.{option_map};
ghost use Rattle.std.specs.Result.{result_err};
ghost use Rattle.std.specs.Prelude.{find, nat_eq};
ghost use Rattle.gl_base.specs.Rows.{Each, without_first};
ghost use Rattle.gl_base.specs.declared.limits.TheConstants.{LINES_MAX};
ghost use Rattle.gl_pins.specs.PinRange.{has_pin, has_offset, overlap};
ghost use Rattle.gl_pins.specs.Pins.{range_refusal, IsWithin};

use crate::range::{PinRange, has_offset, has_pin, offset_in, overlap, pin_in};
use gl_base::{Errno, LINES_MAX, push_within};
use std::alloc::Global;
use std::marker::Model;

/// How many ranges a chip has at most. This project's choice.
pub const RANGES_MAX: usize = 16;

/// The pins have numbers below this one. This project's choice.
pub const PINS_MAX: usize = 4096;

/// The pins of a chip. Contracts see the ranges in the order of their making, and the held pins in the
/// order in which they were taken. A held pin is that of a line, so there is room for as many as a chip has
/// lines at most.
#[derive(Drop)]
pub struct Pins {
    ranges: Vec<PinRange>,
    held: Vec<u32>,
}

impl Model for Pins {
    ghost use Rattle.std.specs.Prelude.{vec_capacity};
    ghost use Rattle.gl_pins.specs.Pins.{PinTable, IsPinTable};

    ghost Value = { PinTable };

    ghost view = { λ p. record { ranges = p.ranges.items; held = p.held.items } };

    ghost invariant = { λ p. IsPinTable p.ranges.items p.held.items (vec_capacity p.ranges) (vec_capacity p.held) };
}

impl Pins {
    ghost use Rattle.gl_pins.specs.Pins.{no_pins, line_of, pin_of, is_held, range_refusal, with_range, hold_refusal, with_held, drop_refusal, without_held};

    /// No range and no held pin. It takes the memory of all of them.
    pub fn new(alloc: Global) -> Result<Pins, Errno>
        ensures ok { IfOk result (λ pins. pins ≡ no_pins) }
        ensures memory_alone { IsOkUnless result Errno.NoMemory }
    {
        let ranges = Vec::with_capacity(alloc, RANGES_MAX)?;
        let held = Vec::with_capacity(alloc, LINES_MAX as usize)?;
        Ok(Pins { ranges, held })
    }

    /// How many ranges and held pins there is room for. These are always `RANGES_MAX` and `LINES_MAX`, since no
    /// call but `new` takes memory.
    pub fn capacity(&self) -> (usize, usize)
        ensures ranges { result.0 ≡ RANGES_MAX }
        ensures held { result.1 ≡ LINES_MAX }
    {
        (self.ranges.capacity(), self.held.capacity())
    }

    /// Maps `count` lines from `offset` on, of a chip of so many `lines`, to as many pins from `pin` on. A
    /// refused call changes nothing. `Inval` comes where `count` is 0, where the lines or the pins pass
    /// their end, or where the lines or the pins overlap those of another range; then `NoSpc` where the
    /// chip has as many ranges as it can.
    pub fn add_range(&mut self, lines: u32, offset: u32, pin: u32, count: u32) -> Result<(), Errno>
        requires { lines ≤ LINES_MAX }
        ensures refusal { result_err result ≡ range_refusal self.old lines (record { offset = offset; pin = pin; count = count }) }
        ensures ok { OnOk result (self.new ≡ with_range (record { offset = offset; pin = pin; count = count }) self.old) }
        ensures err { OnErr result (self.new ≡ self.old) }
    {
        let range = PinRange { offset, pin, count };
        match range_refusal(&self.ranges, lines, &range) {
            Some(errno) => Err(errno),
            None => {
                push_within(&mut self.ranges, range);
                Ok(())
            }
        }
    }

    /// The offset of the line that a range maps to this pin. None exactly where no range has the pin.
    pub fn line_of(&self, pin: u32) -> Option<u32>
        ensures { result ≡ line_of self.now pin }
    {
        match range_of_pin(&self.ranges, pin) {
            Some(range) => Some(offset_in(&range, pin)),
            None => None,
        }
    }

    /// The pin that a range maps to the line at this offset. None exactly where no range has the line.
    pub fn pin_of(&self, offset: u32) -> Option<u32>
        ensures { result ≡ pin_of self.now offset }
    {
        match range_of_offset(&self.ranges, offset) {
            Some(range) => Some(pin_in(&range, offset)),
            None => None,
        }
    }

    /// Whether the pin of the line at this offset is held for another function.
    pub fn is_held(&self, offset: u32) -> bool
        ensures { result ≡ is_held self.now offset }
    {
        match self.pin_of(offset) {
            Some(pin) => holds_pin(&self.held, pin),
            None => false,
        }
    }

    /// Holds a pin for another function; `line_free` tells whether nobody has the line of the pin. A
    /// refused call changes nothing: `Inval` where no range has the pin; `Busy` where it is held already,
    /// or its line isn't free.
    pub fn hold_pin(&mut self, pin: u32, line_free: bool) -> Result<(), Errno>
        ensures refusal { result_err result ≡ hold_refusal self.old pin line_free }
        ensures ok { OnOk result (self.new ≡ with_held pin self.old) }
        ensures err { OnErr result (self.new ≡ self.old) }
    {
        match range_of_pin(&self.ranges, pin) {
            Some(_) => {}
            None => return Err(Errno::Inval),
        }
        if holds_pin(&self.held, pin) || !line_free {
            return Err(Errno::Busy);
        }
        push_within(&mut self.held, pin);
        Ok(())
    }

    /// Drops a pin that is held. `Inval` comes where it isn't held, and then nothing changes.
    pub fn drop_pin(&mut self, pin: u32) -> Result<(), Errno>
        ensures refusal { result_err result ≡ drop_refusal self.old pin }
        ensures ok { OnOk result (self.new ≡ without_held pin self.old) }
        ensures err { OnErr result (self.new ≡ self.old) }
    {
        if !holds_pin(&self.held, pin) {
            return Err(Errno::Inval);
        }
        remove_pin(&mut self.held, pin);
        Ok(())
    }
}

/// Why a new range is refused on a chip of so many lines, if it is.
fn range_refusal(ranges: &[PinRange], lines: u32, range: &PinRange) -> Option<Errno>
    requires { lines ≤ LINES_MAX }
    ensures refusal { result ≡ range_refusal (record { ranges = ranges.now; held = [] }) lines range.now }
    ensures within { IfNone result (IsWithin range.now) }
    ensures apart { IfNone result (list_any (overlap range.now) ranges.now ≡ false) }
    ensures room { IfNone result (length ranges.now < RANGES_MAX) }
{
    let last_line = u64::from(range.offset) + u64::from(range.count);
    let last_pin = u64::from(range.pin) + u64::from(range.count);
    if range.count == 0 || last_line > u64::from(lines) || last_pin > PINS_MAX as u64 {
        return Some(Errno::Inval);
    }
    if overlaps_any(ranges, range) {
        return Some(Errno::Inval);
    }
    if ranges.len() >= RANGES_MAX {
        return Some(Errno::NoSpc);
    }
    None
}

/// Whether a range overlaps one of some.
fn overlaps_any(ranges: &[PinRange], range: &PinRange) -> bool
    ensures { result ≡ list_any (overlap range.now) ranges.now }
{
    ranges.iter().any(|other| overlap(range, other))
}

/// The range that has this pin.
#[tactic(auto, using(crate::proofs::Table::within_at))]
fn range_of_pin(ranges: &[PinRange], pin: u32) -> Option<PinRange>
    requires { Each IsWithin ranges.now }
    ensures found { result ≡ find (has_pin pin) ranges.now }
    ensures has { IfSome result (λ range. IsTrue (has_pin pin range)) }
    ensures within { IfSome result IsWithin }
{
    for range in ranges {
        if has_pin(range, pin) {
            return Some(*range);
        }
    }
    None
}

/// The range that has the line at this offset.
#[tactic(auto, using(crate::proofs::Table::within_at))]
fn range_of_offset(ranges: &[PinRange], offset: u32) -> Option<PinRange>
    requires { Each IsWithin ranges.now }
    ensures found { result ≡ find (has_offset offset) ranges.now }
    ensures has { IfSome result (λ range. IsTrue (has_offset offset range)) }
    ensures within { IfSome result IsWithin }
{
    for range in ranges {
        if has_offset(range, offset) {
            return Some(*range);
        }
    }
    None
}

/// Whether a pin is held.
fn holds_pin(held: &[u32], pin: u32) -> bool
    ensures { result ≡ list_any (nat_eq pin) held.now }
{
    held.iter().any(|other| pin == *other)
}

/// Where a held pin stands.
fn place_of(held: &[u32], pin: u32) -> Option<usize>
    ensures { result ≡ position (nat_eq pin) held.now }
{
    held.iter().position(|other| pin == *other)
}

/// Takes a pin out of those that are held.
#[tactic(auto, using(crate::proofs::Table::removal))]
fn remove_pin(held: &mut Vec<u32>, pin: u32)
    ensures held { held.new.items ≡ without_first (nat_eq pin) held.old.items }
    ensures capacity { vec_capacity held.new ≡ vec_capacity held.old }
{
    match place_of(held, pin) {
        Some(at) => {
            let _pin = held.remove(at);
        }
        None => {}
    }
}
