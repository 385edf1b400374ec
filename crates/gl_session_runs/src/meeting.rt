//! A session whose actors meet in the driver.
ghost use Rattle.std.specs.Prelude.{◌<◌, ◌≤◌, IfSome};

use crate::bells::{BellDriver, new_ports};
use crate::play::{Session, number_of_run};
use crate::run_parameters::{RunParameters, word};
use crate::same::put_same;
use gl_base::{Errno, read_decimal, split_first};
use gl_io::{MemSink, MemSource};
use std::alloc::Global;
use std::sync::Wait;
use std::thread::Threads;

/// How a session runs whose actors meet in the driver.
#[derive(Clone, Copy)]
pub struct Meeting<'a> {
    /// How many calls of the driver are there before it answers the first.
    pub calls: u32,
    /// For how many bytes the sink has room.
    pub room: u32,
    /// What is told of what was written.
    pub told: Front<'a>,
}

/// What is told of what a run wrote.
#[derive(Clone, Copy)]
pub enum Front<'a> {
    /// So many bytes.
    Bytes(u32),
    /// What is the same in every run, with the entries that begin so.
    Same(&'a [u8]),
}

impl<'a> Meeting<'a> {
    /// What a line `meet CALLS ROOM FRONT` or `ring ROOM BEGINNINGS` says.
    pub fn of(line: &'a [u8]) -> Option<Meeting<'a>>
        ensures some { IfSome result (λ meeting. 1 ≤ meeting.calls) }
    {
        match line.strip_prefix(b"ring ") {
            Some(rest) => Meeting::of_bells(rest),
            None => Meeting::of_calls(line.strip_prefix(b"meet ")?),
        }
    }

    /// What the words `CALLS ROOM FRONT` say.
    fn of_calls(words: &'a [u8]) -> Option<Meeting<'a>>
        ensures some { IfSome result (λ meeting. 1 ≤ meeting.calls) }
    {
        let mut rest = words;
        let calls = number(&mut rest)?;
        let room = number(&mut rest)?;
        let front = number(&mut rest)?;
        if calls == 0 {
            return None;
        }
        Some(Meeting {
            calls,
            room,
            told: Front::Bytes(front),
        })
    }

    /// What the words `ROOM BEGINNINGS` say.
    fn of_bells(words: &'a [u8]) -> Option<Meeting<'a>>
        ensures some { IfSome result (λ meeting. 1 ≤ meeting.calls) }
    {
        let (room, beginnings) = split_first(words, b' ');
        Some(Meeting {
            calls: 1,
            room: u32::try_from(read_decimal(room)?).ok()?,
            told: Front::Same(beginnings?),
        })
    }
}

/// Takes the next word as a number.
fn number(rest: &mut &[u8]) -> Option<u32> {
    u32::try_from(read_decimal(word(rest))?).ok()
}

impl Session {
    /// Runs the session over such a driver, and appends its name, its status, what is told of what was written, and how all of that is
    /// judged.
    pub fn put_meeting<R: Threads + Wait + Sync>(
        &self,
        rt: &R,
        meeting: &Meeting<'_>,
        out: &mut Vec<u8>,
    ) -> Result<(), Errno>
        requires { 1 ≤ meeting.now.calls }
    {
        let parameters = RunParameters {
            piece: 64,
            room: meeting.room,
            read: None,
            write: None,
            words: [b"", b""],
        };
        let mut source = self.source(*out.allocator(), &parameters)?;
        self.put_meeting_from(rt, meeting, &parameters, &mut source, out)
    }

    /// The same from a source.
    fn put_meeting_from<R: Threads + Wait + Sync>(
        &self,
        rt: &R,
        meeting: &Meeting<'_>,
        parameters: &RunParameters<'_>,
        source: &mut MemSource,
        out: &mut Vec<u8>,
    ) -> Result<(), Errno>
        requires calls { 1 ≤ meeting.now.calls }
        requires piece { 0 < parameters.now.piece }
    {
        let alloc = *out.allocator();
        let mut sink = parameters.sink(alloc)?;
        let number = run_by_bells(rt, alloc, meeting.calls, source, &mut sink);
        self.put_judged(rt, number, sink.as_slice(), meeting.told, out)
    }

    /// Appends the session's name, the number that its run ended with, what is told of what that wrote, and how all of it is judged.
    fn put_judged<R: Threads + Wait + Sync>(
        &self,
        rt: &R,
        number: u8,
        text: &[u8],
        told: Front<'_>,
        out: &mut Vec<u8>,
    ) -> Result<(), Errno> {
        match told {
            Front::Bytes(front) => {
                let front = text.len().min(front as usize);
                self.put_ended(number, &text[..front], out)?;
            }
            Front::Same(beginnings) => {
                self.put_ended(number, b"", out)?;
                put_same(text, beginnings, out)?;
            }
        }
        self.put_judgment(rt, text, out)
    }

    /// Has an output of the session judged, and appends its name, the status and the judgment.
    fn put_judgment<R: Threads + Wait + Sync>(
        &self,
        rt: &R,
        text: &[u8],
        out: &mut Vec<u8>,
    ) -> Result<(), Errno> {
        let mut printed = Session::new(*out.allocator());
        self.put_printed(text, &mut printed)?;
        let parameters = RunParameters {
            piece: 4096,
            room: 64,
            read: None,
            write: None,
            words: [b"check", b""],
        };
        printed.put_run(rt, &parameters, out)
    }
}

/// Runs a session from a source to a sink over a driver that keeps all calls before its `calls`-th one until that one is answered: the number
/// of its status.
fn run_by_bells<R: Threads + Wait + Sync>(
    rt: &R,
    alloc: Global,
    calls: u32,
    source: &mut MemSource,
    sink: &mut MemSink,
) -> u8
    requires { 1 ≤ calls }
{
    let (driver, mut ports) = (BellDriver::new(calls), new_ports());
    number_of_run(rt, alloc, &[], source, sink, driver, &mut ports)
}
