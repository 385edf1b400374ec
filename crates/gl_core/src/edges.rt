//! Edges of lines: which of them are events of the request that holds the line, and when.

ghost use Rattle.std.specs.Prelude.{◌≡◌, ◌<◌, ◌^◌, true, length, nat_eq, position, slice_index_or, IfSome};
ghost use Rattle.std.specs.List.{list_any};
ghost use Rattle.gl_base.specs.Lines.{IsLineCount, offsets_of};
ghost use Rattle.gl_base.specs.Rows.{change_first};
ghost use Rattle.gl_request.specs.Request.{is_number, request_at};
ghost use Rattle.gl_model.specs.Edges.{deadline_of, edge, event_time, input_holder, position_in, raw_edge, raw_edge_for, request_number};
ghost use Rattle.gl_model.specs.Places.{no_place, place_at};
ghost use Rattle.gl_core.specs.HeldLines.{HoldersHaveLines, is_line_of, noted_at};
ghost use Rattle.gl_core.specs.Shape.{HasLine};
ghost use Rattle.gl_core.specs.Steps.{Follows};

use crate::state::State;
use gl_bank::{Change, Levels, flip};
use gl_base::{Lines, flag, has_bit};
use gl_desc::Holder;
use gl_model::Place;

/// The number of the request that holds a line.
fn request_number(holder: Holder) -> Option<u32>
    ensures { result ≡ request_number holder }
{
    match holder {
        Holder::Held(fd) => Some(fd),
        Holder::Free | Holder::Claimed(_) | Holder::Hog => None,
    }
}

/// The number of the request that holds a line as an input.
fn input_holder(place: &Place, offset: u32) -> Option<u32>
    requires descs { offset < length place.now.descs }
    requires bank { offset < length place.now.bank }
    ensures { result ≡ input_holder place.now offset }
{
    if place.bank.is_output(offset) {
        None
    } else {
        request_number(place.descs.holder(offset))
    }
}

/// Where an offset stands among some.
fn position_of(offset: u32, offsets: &[u32]) -> Option<usize>
    ensures { result ≡ position (nat_eq offset) offsets.now }
{
    offsets.iter().position(|other| offset == *other)
}

/// Where a line stands in the request that has it.
fn position_in(offset: u32, lines: &Lines) -> u32
    requires count { IsLineCount lines.now.count }
    requires there { list_any (nat_eq offset) (offsets_of lines.now) ≡ true }
    ensures position { result ≡ position_in offset lines.now }
    ensures within { result < lines.now.count }
{
    let position = position_of(offset, lines.offsets());
    position.unwrap() as u32
}

/// When a debounced line settles that has an edge at this moment, in nanoseconds: its period is in microseconds.
fn deadline_of(line: &Levels, moment: u64) -> u64
    requires { moment < 2 ^ 63 }
    ensures { result ≡ deadline_of line.now moment }
{
    moment + 1000 * u64::from(line.debounce_us)
}

impl State {
    /// The number of the request that holds a line as an input. Nobody holds a line that isn't there.
    fn input_holder(&self, place: u8, offset: u32) -> Option<u32>
        ensures told { result ≡ input_holder (slice_index_or self.now.places place no_place) offset }
        ensures there { IfSome result (λ fd. HasLine self.now.places place offset) }
    {
        if self.chips.lines(place) <= offset {
            return None;
        }
        input_holder(self.places.at(place), offset)
    }

    /// When an event of a line with these flags happens: at this moment of the monotonic clock, or of the real one.
    fn event_time(&self, flags: u64, moment: u64) -> u64
        ensures { result ≡ event_time flags moment self.now.real }
    {
        if has_bit(flags, flag::EVENT_CLOCK_REALTIME) {
            self.real
        } else {
            moment
        }
    }

    /// An edge comes to a request that has the line at this offset. Where the request monitors its direction it is an event,
    /// which is numbered now.
    fn note_edge(&mut self, fd: u32, offset: u32, rising: bool, timestamp: u64)
        requires { is_line_of offset (request_at self.old.requests fd) ≡ true }
        ensures { self.new ≡ record self.old { requests = change_first (is_number fd) (noted_at offset rising timestamp) self.old.requests } }
    {
        let found = self.requests.find(fd).unwrap();
        let position = position_in(offset, &self.requests.row(found).lines);
        self.requests.edge_at(found, position, rising, timestamp);
    }

    /// An edge of a line to a physical level, at a moment of the monotonic clock: it comes to the request that holds the line
    /// as an input, if one does.
    pub(crate) fn edge(&mut self, place: u8, offset: u32, up: bool, moment: u64)
        requires { HoldersHaveLines self.old.places self.old.requests }
        ensures follows { Follows (edge place offset up moment) self.old self.new }
        ensures lines { HoldersHaveLines self.new.places self.new.requests }
        ensures rest { self.new ≡ record self.old { requests = self.new.requests } }
    {
        match self.input_holder(place, offset) {
            None => {}
            Some(fd) => {
                let line = self.places.at(place).bank.line(offset);
                let timestamp = self.event_time(line.flags, moment);
                self.note_edge(fd, offset, flip(line.flags, up), timestamp);
            }
        }
    }

    /// The line has another physical level: an edge at once where it isn't debounced, or by its driver, else a level that is to
    /// settle.
    fn raw_edge_to(&mut self, place: u8, offset: u32, up: bool)
        requires { HoldersHaveLines self.old.places self.old.requests }
        ensures { Follows (λ w. raw_edge_for (input_holder (place_at w place) offset) place offset up w) self.old self.new }
    {
        match self.input_holder(place, offset) {
            None => {}
            Some(_) => {
                let line = self.places.at(place).bank.line(offset);
                if line.debounce_us == 0 || self.timers.is_hard(place, offset) {
                    self.edge(place, offset, up, self.mono);
                } else {
                    let deadline = deadline_of(&line, self.mono);
                    self.timers.raw(place, offset, up, deadline);
                }
            }
        }
    }

    /// A change of a line's physical level, where there is one: a raw edge for the request that holds the line as an input.
    pub(crate) fn raw_edge(&mut self, place: u8, offset: u32, change: Option<Change>)
        requires { HoldersHaveLines self.old.places self.old.requests }
        ensures { Follows (raw_edge place offset change) self.old self.new }
    {
        match change {
            None => {}
            Some(change) => self.raw_edge_to(place, offset, change.rose),
        }
    }
}
