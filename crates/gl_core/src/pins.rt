//! The pins of chips.

ghost use Rattle.std.specs.Prelude.{◌≡◌, ◌<◌, length, slice_index_or, vec_capacity};
ghost use Rattle.gl_base.specs.Positions.{change_at};
ghost use Rattle.gl_base.specs.Refusals.{answer};
ghost use Rattle.gl_desc.specs.Desc.{is_free};
ghost use Rattle.gl_model.specs.Pins.{is_line_free, pin, pin_refusal};
ghost use Rattle.gl_model.specs.Places.{no_place};
ghost use Rattle.gl_core.specs.Shape.{HasLines, HasPlace, with_pin_done};
ghost use Rattle.gl_core.specs.Steps.{Steps};

use crate::state::State;
use crate::tree::reply_of;
use gl_base::{Errno, PinDo};
use gl_desc::Holder;
use gl_model::{Place, Reply};

impl State {
    /// Does something with the pins of a chip.
    pub(crate) fn pin(&mut self, place: u8, what: PinDo) -> Reply
        ensures { Steps (pin place what) self.old self.new result }
    {
        match self.place_refusal(place) {
            Some(errno) => Reply::Refused(errno),
            None => {
                let lines = self.chips.lines(place);
                reply_of(self.places.pin(place, lines, what))
            }
        }
    }
}

/// Nobody has a line.
fn is_free(holder: Holder) -> bool
    ensures { result ≡ is_free holder }
{
    match holder {
        Holder::Free => true,
        Holder::Claimed(_) | Holder::Held(_) | Holder::Hog => false,
    }
}

/// Nobody has the line that a pin is mapped to, if one is.
fn is_line_free(place: &Place, lines: u32, offset: Option<u32>) -> bool
    requires { HasLines lines place.now }
    ensures { result ≡ is_line_free place.now offset }
{
    match offset {
        None => true,
        Some(offset) => lines <= offset || is_free(place.descs.holder(offset)),
    }
}

/// Does something with the pins of a place with so many lines.
fn pin_of_place(place: &mut Place, lines: u32, what: PinDo) -> Result<(), Errno>
    requires { HasLines lines place.old }
    ensures answer { result ≡ answer (pin_refusal lines place.old what) tt }
    ensures place { place.new ≡ with_pin_done lines what place.old }
{
    match what {
        PinDo::Range { offset, pin, count } => place.pins.add_range(lines, offset, pin, count),
        PinDo::Hold(pin) => {
            let line_free = is_line_free(place, lines, place.pins.line_of(pin));
            place.pins.hold_pin(pin, line_free)
        }
        PinDo::Release(pin) => place.pins.drop_pin(pin),
    }
}

/// Does something with the pins of one of some places.
pub(crate) fn pin_at(
    places: &mut Vec<Place>,
    place: u8,
    lines: u32,
    what: PinDo,
) -> Result<(), Errno>
    requires { HasPlace lines places.old.items place }
    ensures answer { result ≡ answer (pin_refusal lines (slice_index_or places.old.items place no_place) what) tt }
    ensures places { places.new.items ≡ change_at no_place place (with_pin_done lines what) places.old.items }
    ensures capacity { vec_capacity places.new ≡ vec_capacity places.old }
    ensures as_many { length places.new.items ≡ length places.old.items }
{
    pin_of_place(&mut places[usize::from(place)], lines, what)
}
