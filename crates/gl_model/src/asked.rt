//! What a request of lines asks for, as it is handed on.

ghost use Rattle.std.specs.Prelude.{◌≡◌, ◌≤◌, None, IfErr, IfOk, length, take};
ghost use Rattle.gl_base.specs.Lines.{IsLineCount};
ghost use Rattle.gl_base.specs.declared.errno.Errno.TheVariants.{NoMemory};
ghost use Rattle.gl_base.specs.declared.limits.TheConstants.{LINES_PER_REQUEST};
ghost use Rattle.gl_ring.specs.declared.ring.TheConstants.{RING_EVENTS_MAX};
ghost use Rattle.gl_uapi.specs.declared.layout.TheConstants.{LINE_REQUEST_SIZE};
ghost use Rattle.gl_model.specs.AskedLines.{asked_by, request_fault};

use crate::parsed_request::ParsedRequest;
use gl_base::{Errno, Lines, Name, Resolved};
use gl_uapi::layout::LINE_REQUEST_SIZE;
use std::alloc::Global;
use std::marker::Model;

/// What a request of lines asks for. It stands on the heap, so that who has none of it moves little.
#[derive(Drop)]
pub struct Asked {
    parsed: Box<ParsedRequest>,
}

impl Model for Asked {
    ghost use Rattle.gl_model.specs.AskedLines.{AskedLines};

    ghost Value = { AskedLines };

    ghost view = { λ a. a.parsed.value };
}

impl Asked {
    /// What the bytes of a request ask for, or why they alone have it refused, first case first: `Inval` where they ask for no line
    /// or for more than 64, and where their padding isn't zero; then what is wrong with the configuration of the lines. `NoMemory` is
    /// its only error, and comes only where they ask for something.
    pub fn of(bytes: &[u8; LINE_REQUEST_SIZE], alloc: Global) -> Result<Result<Asked, Errno>, Errno>
        ensures ok { IfOk result (λ asked. asked ≡ asked_by (take LINE_REQUEST_SIZE bytes.now)) }
        ensures memory { IfErr result (λ errno. (errno ≡ NoMemory) × (request_fault (take LINE_REQUEST_SIZE bytes.now) ≡ None)) }
    {
        match ParsedRequest::of(bytes) {
            Err(errno) => Ok(Err(errno)),
            Ok(parsed) => match Box::new(alloc, parsed) {
                Err(_) => Err(Errno::NoMemory),
                Ok(parsed) => Ok(Ok(Asked { parsed })),
            },
        }
    }

    /// The lines, 1 to 64.
    pub fn lines(&self) -> &Lines
        ensures lines { result.now ≡ self.now.lines }
        ensures count { IsLineCount self.now.lines.count }
        ensures size { length self.now.lines.offsets ≡ LINES_PER_REQUEST }
    {
        let parsed: &ParsedRequest = &self.parsed;
        &parsed.lines
    }

    /// In whose name they are requested.
    pub fn consumer(&self) -> Name
        ensures { result ≡ self.now.consumer }
    {
        let parsed: &ParsedRequest = &self.parsed;
        parsed.consumer
    }

    /// How each line is to be set.
    pub fn settings(&self) -> &Resolved
        ensures settings { result.now ≡ self.now.settings }
        ensures count { self.now.settings.count ≡ self.now.lines.count }
    {
        let parsed: &ParsedRequest = &self.parsed;
        &parsed.settings
    }

    /// For how many events the request asks for room, 1 to 1024.
    pub fn capacity(&self) -> u32
        ensures capacity { result ≡ self.now.capacity }
        ensures some { 1 ≤ result }
        ensures few { result ≤ RING_EVENTS_MAX }
    {
        let parsed: &ParsedRequest = &self.parsed;
        parsed.capacity
    }
}
