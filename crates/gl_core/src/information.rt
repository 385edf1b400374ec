//! What the information on a line shows.

ghost use Rattle.std.specs.Prelude.{◌≡◌, ◌<◌, ◌^◌, if◌then◌else◌, length};
ghost use Rattle.gl_model.specs.Information.{consumer_shown, flags_shown, info_of, is_requested, is_used, line_at, name_or_mark, shows_flag};
ghost use Rattle.gl_core.specs.Shape.{HasLines};

use gl_base::{Name, flag, has_bit};
use gl_desc::Holder;
use gl_model::Place;
use gl_uapi::Info;

/// The information on a line of a place (`linux/gpio.h`, `struct gpio_v2_line_info`).
pub(crate) fn info_of(place: &Place, offset: u32) -> Info
    requires tables { HasLines (length place.now.descs) place.now }
    requires within { offset < length place.now.descs }
    ensures { result ≡ info_of offset (line_at place.now offset) }
{
    Info {
        name: place.descs.name(offset),
        consumer: consumer_shown(place, offset),
        offset,
        flags: flags_shown(place, offset),
        period: place.bank.line(offset).debounce_us,
    }
}

/// Whom the information names.
fn consumer_shown(place: &Place, offset: u32) -> Name
    requires tables { HasLines (length place.now.descs) place.now }
    requires within { offset < length place.now.descs }
    ensures { result ≡ consumer_shown (line_at place.now offset) }
{
    match place.descs.holder(offset) {
        Holder::Free => {
            if place.irqs.locked(offset) {
                Name::filled(b"interrupt")
            } else {
                Name::empty()
            }
        }
        Holder::Claimed(_) | Holder::Held(_) | Holder::Hog => {
            name_or_mark(place.descs.consumer(offset))
        }
    }
}

/// A consumer that gave no name shows as `?`.
fn name_or_mark(name: Name) -> Name
    ensures { result ≡ name_or_mark name }
{
    if name.as_bytes().is_empty() {
        Name::filled(b"?")
    } else {
        name
    }
}

/// The word with the bit of this number alone where the test holds, else the word without bits.
#[tactic(auto, using(crate::proofs::Bits::one_bit))]
pub(crate) fn bit_where(test: bool, number: u32) -> u64
    requires { number < 64 }
    ensures { result ≡ (if test then 2 ^ number else 0) }
{
    if test { 1 << number } else { 0 }
}

/// The word of the flags that the information shows.
#[tactic(auto, using(crate::proofs::Bits::bits_where_more, crate::proofs::Bits::bits_where_fit), unfolding(gl_model::specs::Bits::bits_where))]
fn flags_shown(place: &Place, offset: u32) -> u64
    requires tables { HasLines (length place.now.descs) place.now }
    requires within { offset < length place.now.descs }
    ensures { result ≡ flags_shown (line_at place.now offset) }
{
    let mut flags = 0u64;
    for number in 0..flag::EVENT_CLOCK_HTE + 1 {
        flags += bit_where(shows_flag(place, offset, number), number);
    }
    flags
}

/// Whether the information shows the flag of this number.
fn shows_flag(place: &Place, offset: u32, number: u32) -> bool
    requires tables { HasLines (length place.now.descs) place.now }
    requires within { offset < length place.now.descs }
    requires number { number < 64 }
    ensures { result ≡ shows_flag (line_at place.now offset) number }
{
    match number {
        flag::USED => is_used(place, offset),
        flag::INPUT => !place.bank.is_output(offset),
        flag::OUTPUT => place.bank.is_output(offset),
        _ => {
            is_requested(place.descs.holder(offset))
                && has_bit(place.bank.line(offset).flags, number)
        }
    }
}

/// Whether the line is in use.
fn is_used(place: &Place, offset: u32) -> bool
    requires tables { HasLines (length place.now.descs) place.now }
    requires within { offset < length place.now.descs }
    ensures { result ≡ is_used (line_at place.now offset) }
{
    !matches!(place.descs.holder(offset), Holder::Free)
        || place.pins.is_held(offset)
        || place.irqs.locked(offset)
}

/// Whether a request holds a line.
fn is_requested(holder: Holder) -> bool
    ensures { result ≡ is_requested holder }
{
    match holder {
        Holder::Held(_) => true,
        Holder::Free | Holder::Claimed(_) | Holder::Hog => false,
    }
}
