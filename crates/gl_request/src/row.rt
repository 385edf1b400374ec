//! One request.

ghost use Rattle.std.specs.Prelude.{◌≡◌, ◌<◌, Some};
ghost use Rattle.gl_ring.specs.Edges.{direction_flag};
ghost use Rattle.gl_request.specs.Request.{event_of, is_open_at, noted, row_of};

use gl_base::{LINES_PER_REQUEST, Lines, Resolved, flag, has_bit};
use gl_ring::EdgeRing;
use gl_uapi::Event;
use gl_uapi::layout::{EVENT_FALLING, EVENT_RISING};

/// What a request begins as.
#[derive(Clone, Copy, PartialEq, Eq)]
pub struct Claim {
    /// The number of the request's file.
    pub fd: u32,
    /// The place of the chip.
    pub place: u8,
    /// Who asks.
    pub actor: u8,
    /// The lines.
    pub lines: Lines,
    /// How they are to be configured.
    pub settings: Resolved,
}

/// A request where it stands in the table, as a look-up found it. It stands there until a request is taken out.
#[derive(Clone, Copy, PartialEq, Eq)]
pub struct RequestAt {
    /// The number of the request's file.
    pub fd: u32,
    /// The position of its row, counted from 0.
    pub at: usize,
}

/// A request.
#[derive(Drop)]
pub struct RequestRow {
    /// The number of the request's file.
    pub fd: u32,
    /// The place of the chip.
    pub place: u8,
    /// Who asked.
    pub actor: u8,
    /// The request is finished: its lines are held. Else it is a claim of them.
    pub held: bool,
    /// The lines.
    pub lines: Lines,
    /// How they are configured.
    pub settings: Resolved,
    /// The events that wait.
    pub ring: EdgeRing,
    /// The number of the last event, modulo 2^32; 0 before the first.
    pub count: u32,
    /// The number of the last event of each line, modulo 2^32; 0 before the first.
    pub line_counts: [u32; LINES_PER_REQUEST as usize],
}

impl RequestRow {
    /// What a claim begins as.
    #[tactic(auto, unfolding(crate::specs::Request::no_counts))]
    pub(crate) fn begin(claim: Claim, ring: EdgeRing) -> RequestRow
        ensures { result ≡ row_of claim ring }
    {
        RequestRow {
            fd: claim.fd,
            place: claim.place,
            actor: claim.actor,
            held: false,
            lines: claim.lines,
            settings: claim.settings,
            ring,
            count: 0,
            line_counts: [0; LINES_PER_REQUEST as usize],
        }
    }

    /// Whether the request is finished and of this place.
    pub(crate) fn is_open_at(&self, place: u8) -> bool
        ensures { result ≡ is_open_at place (Some self.now) }
    {
        self.held && self.place == place
    }

    /// Notes an edge of the line at position `i`, which is an event where its direction is monitored.
    pub(crate) fn note(&mut self, i: u32, rising: bool, timestamp: u64) -> Option<Event>
        requires { i < LINES_PER_REQUEST }
        ensures row { self.new ≡ noted i rising timestamp self.old }
        ensures event { result ≡ event_of i rising timestamp self.old }
    {
        let position = i as usize;
        if !has_bit(self.settings.lines[position].flags, direction_flag(rising)) {
            return None;
        }
        let seqno = self.count.wrapping_add(1);
        let line_seqno = self.line_counts[position].wrapping_add(1);
        let event = Event {
            timestamp,
            id: if rising { EVENT_RISING } else { EVENT_FALLING },
            offset: self.lines.offsets[position],
            seqno,
            line_seqno,
        };
        self.count = seqno;
        self.line_counts[position] = line_seqno;
        self.ring.push(event);
        Some(event)
    }
}

/// The flag that has a direction monitored.
fn direction_flag(rising: bool) -> u32
    ensures flag { result ≡ direction_flag rising }
    ensures within { result < 64 }
{
    if rising {
        flag::EDGE_RISING
    } else {
        flag::EDGE_FALLING
    }
}
