//! The edges of a request's lines.

ghost use Rattle.std.specs.Prelude.{◌≡◌, ◌+◌, ◌*◌, ◌/◌, ◌^◌, ◌<◌, ◌≤◌, ◌++◌, length, take, drop};
ghost use Rattle.gl_uapi.specs.Fields.{stretch};
ghost use Rattle.gl_uapi.specs.LineEvent.{SpellsEvent, event_bytes, event_in};

use crate::fields::{bytes_at, put_u32, put_u64, put_zeros, u32_at, u64_at};
use crate::layout::{
    EVENT_ID, EVENT_LINE_SEQNO, EVENT_OFFSET, EVENT_PADDING, EVENT_PADDING_SIZE, EVENT_SEQNO,
    EVENT_TIMESTAMP, LINE_EVENT_SIZE,
};
use std::marker::Model;

/// An edge of a line.
#[derive(Clone, Copy, PartialEq, Eq)]
pub struct Event {
    /// When it came, in nanoseconds.
    pub timestamp: u64,
    /// Which edge: [`EVENT_RISING`](crate::layout::EVENT_RISING) or
    /// [`EVENT_FALLING`](crate::layout::EVENT_FALLING).
    pub id: u32,
    /// The line's offset on its chip.
    pub offset: u32,
    /// Its number among the events of its request, from 1; it wraps at 2^32.
    pub seqno: u32,
    /// Its number among the events of its line in the request, from 1; it wraps at 2^32.
    pub line_seqno: u32,
}

/// Edges one after the other (`struct gpio_v2_line_event`), 48 bytes each: contracts see the bytes.
#[derive(Drop)]
pub struct EventsRef<'a> {
    bytes: &'a [u8],
}

impl<'a> Model for EventsRef<'a> {
    ghost use Rattle.std.specs.Prelude.{◌^◌, ◌<◌, List, ℕ, length};

    ghost Value = { List ℕ };

    ghost view = { λ e. e.bytes.now };

    ghost invariant = { λ e. length e.bytes.now < 2 ^ 32 };
}

impl<'a> EventsRef<'a> {
    /// The view of these bytes. Bytes at the end that are no whole event are passed over.
    pub fn of(bytes: &'a [u8]) -> EventsRef<'a>
        requires { length bytes.now < 2 ^ 32 }
        ensures { result ≡ bytes.now }
    {
        EventsRef { bytes }
    }

    /// How many whole events there are.
    pub fn count(&self) -> u32
        ensures { result ≡ length self.now / LINE_EVENT_SIZE }
    {
        (self.bytes.len() / LINE_EVENT_SIZE) as u32
    }

    /// The event at position `i`, counted from 0.
    pub fn get(&self, i: u32) -> Event
        requires { i < length self.now / LINE_EVENT_SIZE }
        ensures { result ≡ event_in (stretch (LINE_EVENT_SIZE * i) LINE_EVENT_SIZE self.now) }
    {
        let start = LINE_EVENT_SIZE * i as usize;
        event_of(bytes_at(self.bytes, start, LINE_EVENT_SIZE))
    }
}

/// The event that these bytes spell.
fn event_of(bytes: &[u8]) -> Event
    requires { LINE_EVENT_SIZE ≤ length bytes.now }
    ensures { result ≡ event_in bytes.now }
{
    Event {
        timestamp: u64_at(bytes, EVENT_TIMESTAMP),
        id: u32_at(bytes, EVENT_ID),
        offset: u32_at(bytes, EVENT_OFFSET),
        seqno: u32_at(bytes, EVENT_SEQNO),
        line_seqno: u32_at(bytes, EVENT_LINE_SEQNO),
    }
}

/// Writes the event over the first 48 bytes, and leaves the rest.
pub fn write_event(out: &mut [u8], event: &Event)
    requires { LINE_EVENT_SIZE ≤ length out.old }
    ensures spelled { SpellsEvent (take LINE_EVENT_SIZE out.new) event.now }
    ensures bytes { out.new ≡ event_bytes event.now ++ drop LINE_EVENT_SIZE out.old }
{
    put_u64(out, EVENT_TIMESTAMP, event.timestamp);
    put_u32(out, EVENT_ID, event.id);
    put_u32(out, EVENT_OFFSET, event.offset);
    put_u32(out, EVENT_SEQNO, event.seqno);
    put_u32(out, EVENT_LINE_SEQNO, event.line_seqno);
    put_zeros(out, EVENT_PADDING, EVENT_PADDING_SIZE);
}
