//! Which entry comes next.

ghost use Rattle.std.specs.Prelude.{◌≡◌};
ghost use Rattle.std.specs.Bool.{Decides};
ghost use Rattle.gl_model.specs.Entries.{guarded_place};
ghost use Rattle.gl_model.specs.Parts.{is_poll};
ghost use Rattle.gl_model.specs.Step.{guard_reply};
ghost use Rattle.gl_model.specs.declared.call.Call.TheVariants.{Refused as RefusedCall};
ghost use Rattle.gl_model.specs.declared.device_call.DeviceCall.TheVariants.{Once};
ghost use Rattle.gl_check.specs.Seating.{port_in};
ghost use Rattle.gl_check.specs.Seats.{IsRefusedAt, SuitsFirst, SuitsStand, is_refusal, second_of};

use crate::parts::{guard_reply, is_refusal, second_of};
use crate::port::Planned;
use crate::stand::Stand;
use gl_asking::parts::is_poll;
use gl_core::{Core, entries};
use gl_model::Call;
use gl_world::Entry;

/// Whether an entry is the next one of an actor that stands so.
pub fn suits(stand: &Stand, port: &Planned, entry: &Entry<Core>) -> bool
    ensures { Decides result (SuitsStand stand.now (port_in port.now) entry.now) }
{
    match stand {
        Stand::Ended => false,
        Stand::Before { first, .. } => suits_first(first, entry),
        Stand::Between { first, .. } => suits_second(first, port, entry),
    }
}

/// Whether an entry is the first one of a call of the device: that of its closed guard, or the first one behind an open one.
fn suits_first(first: &Call, entry: &Entry<Core>) -> bool
    ensures { Decides result (SuitsFirst (is_refusal entry.now.call) first.now entry.now) }
{
    if is_refusal(&entry.call) {
        is_refused_at(first, entry)
    } else {
        is_of(entry, first)
    }
}

/// Whether an entry is the second one of a call of the device, after a first one that begins.
fn suits_second(first: &Call, port: &Planned, entry: &Entry<Core>) -> bool
    ensures { Decides result (entry.now.call ≡ second_of first.now (port_in port.now)) }
{
    let second = second_of(first, port);
    is_of(entry, &second)
}

/// Whether an entry has this call.
fn is_of(entry: &Entry<Core>, call: &Call) -> bool
    ensures { Decides result (entry.now.call ≡ call.now) }
{
    entry.call == *call
}

/// Whether an entry is that of the closed guard of a call.
fn is_refused_at(first: &Call, entry: &Entry<Core>) -> bool
    ensures { Decides result (IsRefusedAt (guarded_place first.now) (is_poll (Once first.now)) entry.now) }
{
    match entries::place_of(first) {
        Some(place) => records_guard(place, is_poll(first), entry),
        None => false,
    }
}

/// Whether an entry records the closed guard of a place.
fn records_guard(place: u8, poll: bool, entry: &Entry<Core>) -> bool
    ensures { Decides result ((entry.now.call ≡ RefusedCall place poll) × (entry.now.reply ≡ guard_reply poll)) }
{
    let refused = Call::Refused { place, poll };
    entry.call == refused && entry.reply == guard_reply(poll)
}
