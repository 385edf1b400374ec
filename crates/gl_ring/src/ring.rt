//! A ring of events.

ghost use Rattle.std.specs.Prelude.{◌≡◌, ◌+◌, ◌*◌, ◌<◌, ◌≤◌, ◌++◌, [], ◌==◌, length, drop, IfOk, IfErr};
ghost use Rattle.std.specs.List.{flat_map};
ghost use Rattle.circular_buffer.specs.Buffer.{buffer};
ghost use Rattle.gl_uapi.specs.LineEvent.{event_bytes};
ghost use Rattle.gl_ring.specs.Waiting.{dropped, left, pushed, taken, taken_count};

use circular_buffer::HeapCircularBuffer;
use gl_base::Errno;
use gl_uapi::layout::LINE_EVENT_SIZE;
use gl_uapi::{Event, write_event};
use std::alloc::Global;
use std::marker::Model;

/// How many events a ring holds at most, as gpiolib has it: 16 for each of the 64 lines that a request may
/// have.
pub const RING_EVENTS_MAX: u32 = 1024;

/// Events that wait, the oldest first, and how many there may be. Contracts see the items and the
/// capacity.
#[derive(Drop)]
pub struct EdgeRing {
    events: HeapCircularBuffer<Event>,
}

impl Model for EdgeRing {
    ghost use Rattle.std.specs.Prelude.{◌≤◌};
    ghost use Rattle.circular_buffer.specs.Buffer.{Buffer};
    ghost use Rattle.gl_uapi.specs.declared.line_events.Event.{Event};
    ghost use Rattle.gl_ring.specs.declared.ring.TheConstants.{RING_EVENTS_MAX};

    ghost Value = { Buffer Event };

    ghost view = { λ r. r.events };

    ghost invariant = { λ r. (1 ≤ r.events.capacity) × (r.events.capacity ≤ RING_EVENTS_MAX) };
}

impl EdgeRing {
    /// A ring without events, with room for so many, 1 to 1024. `NoMemory` is its one refusal.
    pub fn with_capacity(alloc: Global, capacity: u32) -> Result<EdgeRing, Errno>
        requires some { 1 ≤ capacity }
        requires few { capacity ≤ RING_EVENTS_MAX }
        ensures ok { IfOk result (λ ring. ring ≡ buffer [] capacity) }
        ensures refused { IfErr result (λ errno. errno ≡ Errno.NoMemory) }
    {
        match HeapCircularBuffer::with_capacity(alloc, capacity as usize) {
            Ok(events) => Ok(EdgeRing { events }),
            Err(_) => Err(Errno::NoMemory),
        }
    }

    /// Adds an event. Where the ring is full the oldest event is dropped, and is the answer.
    pub fn push(&mut self, event: Event) -> Option<Event>
        ensures ring { self.new ≡ pushed event self.old }
        ensures dropped { result ≡ dropped self.old }
    {
        self.events.push_back(event)
    }

    /// Moves the first events into `out`, at most `max` of them, as bytes one after the other, and answers
    /// how many. What stands behind them in `out` stays.
    pub fn read(&mut self, max: u32, out: &mut [u8]) -> u32
        requires { LINE_EVENT_SIZE * max ≤ length out.old }
        ensures count { result ≡ taken_count max self.old }
        ensures ring { self.new ≡ left max self.old }
        ensures out { out.new ≡ flat_map event_bytes (taken max self.old) ++ drop (LINE_EVENT_SIZE * result) out.old }
    {
        let count = max.min(self.len());
        for i in 0..count {
            let event = self.events.pop_front().unwrap();
            let start = LINE_EVENT_SIZE * i as usize;
            write_event(&mut out[start..], &event);
        }
        count
    }

    /// How many events wait.
    pub fn len(&self) -> u32
        ensures len { result ≡ length self.now.items }
        ensures within { result ≤ self.now.capacity }
        ensures few { self.now.capacity ≤ RING_EVENTS_MAX }
    {
        self.events.len() as u32
    }

    /// Whether no event waits.
    pub fn is_empty(&self) -> bool
        ensures { result ≡ (length self.now.items == 0) }
    {
        self.events.is_empty()
    }

    /// The events that wait, in two slices: joined they are the events in order.
    pub fn parts(&self) -> (&[Event], &[Event])
        ensures { result.0.now ++ result.1.now ≡ self.now.items }
    {
        self.events.as_slices()
    }
}
