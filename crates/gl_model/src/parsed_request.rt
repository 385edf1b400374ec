//! What the bytes of a line request ask for.

ghost use Rattle.std.specs.Prelude.{◌≡◌, ◌≤◌, None, Some, IfErr, IfOk, take};
ghost use Rattle.gl_ring.specs.declared.ring.TheConstants.{RING_EVENTS_MAX};
ghost use Rattle.gl_base.specs.Lines.{IsLineCount};
ghost use Rattle.gl_model.specs.AskedLines.{asked_in, capacity_for, lines_asked, request_fault};

use gl_attrs::resolve;
use gl_base::{Errno, LINES_PER_REQUEST, Lines, Name, Resolved};
use gl_ring::RING_EVENTS_MAX;
use gl_uapi::RequestRef;
use gl_uapi::layout::LINE_REQUEST_SIZE;
use std::marker::Model;

/// What a request asks for. It has 1 to 64 lines, as many settings, and asks for room for 1 to 1024 events.
#[derive(Drop)]
pub(crate) struct ParsedRequest {
    pub(crate) lines: Lines,
    pub(crate) consumer: Name,
    pub(crate) settings: Resolved,
    pub(crate) capacity: u32,
}

impl Model for ParsedRequest {
    ghost use Rattle.std.specs.Prelude.{◌≡◌, ◌≤◌, length};
    ghost use Rattle.gl_base.specs.declared.limits.TheConstants.{LINES_PER_REQUEST};
    ghost use Rattle.gl_base.specs.Lines.{IsLineCount};
    ghost use Rattle.gl_model.specs.AskedLines.{AskedLines};
    ghost use Rattle.gl_ring.specs.declared.ring.TheConstants.{RING_EVENTS_MAX};

    ghost Value = { AskedLines };

    ghost view = { λ a. record { lines = a.lines; consumer = a.consumer; settings = a.settings; capacity = a.capacity } };

    ghost invariant = { λ a. IsLineCount a.lines.count × (length a.lines.offsets ≡ LINES_PER_REQUEST) × (a.settings.count ≡ a.lines.count) × (1 ≤ a.capacity) × (a.capacity ≤ RING_EVENTS_MAX) };
}

impl ParsedRequest {
    /// What the bytes of a request ask for, or why they alone have it refused, first case first: `Inval` where they ask for no
    /// line or for more than 64, and where their padding isn't zero; then what is wrong with the configuration of the lines.
    pub(crate) fn of(bytes: &[u8; LINE_REQUEST_SIZE]) -> Result<ParsedRequest, Errno>
        ensures ok { IfOk result (λ asked. asked ≡ asked_in (take LINE_REQUEST_SIZE bytes.now)) }
        ensures lines { IfOk result (λ asked. IsLineCount asked.lines.count) }
        ensures passed { IfOk result (λ _. request_fault (take LINE_REQUEST_SIZE bytes.now) ≡ None) }
        ensures refused { IfErr result (λ errno. request_fault (take LINE_REQUEST_SIZE bytes.now) ≡ Some errno) }
    {
        asked_in(&RequestRef::of(bytes).unwrap())
    }
}

/// What a request asks for, or why its bytes alone have it refused.
fn asked_in(request: &RequestRef<'_>) -> Result<ParsedRequest, Errno>
    ensures ok { IfOk result (λ asked. asked ≡ asked_in request.now) }
    ensures lines { IfOk result (λ asked. IsLineCount asked.lines.count) }
    ensures passed { IfOk result (λ _. request_fault request.now ≡ None) }
    ensures refused { IfErr result (λ errno. request_fault request.now ≡ Some errno) }
{
    let count = request.num_lines();
    if count == 0 || count > LINES_PER_REQUEST {
        return Err(Errno::Inval);
    }
    if !request.padding_is_zero() {
        return Err(Errno::Inval);
    }
    match resolve(request.config(), count) {
        Err(errno) => Err(errno),
        Ok(settings) => Ok(ParsedRequest {
            lines: lines_asked(request),
            consumer: Name::read(request.consumer()),
            settings,
            capacity: capacity_for(count, request.event_buffer_size()),
        }),
    }
}

/// The lines that a request names, in order, as many as its bytes say.
pub fn lines_asked(request: &RequestRef<'_>) -> Lines
    ensures { result ≡ lines_asked request.now }
{
    let mut offsets = [0; LINES_PER_REQUEST as usize];
    for i in 0..LINES_PER_REQUEST {
        offsets[i as usize] = request.offset(i);
    }
    Lines {
        count: request.num_lines(),
        offsets,
    }
}

/// For how many events there is room: as many as are asked for, at most 1024; where none are asked for, 16 a line.
fn capacity_for(lines: u32, events: u32) -> u32
    requires { IsLineCount lines }
    ensures capacity { result ≡ capacity_for lines events }
    ensures some { 1 ≤ result }
    ensures few { result ≤ RING_EVENTS_MAX }
{
    if events == 0 {
        16 * lines
    } else {
        events.min(RING_EVENTS_MAX)
    }
}
