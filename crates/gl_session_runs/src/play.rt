//! A session that is played in memory.
ghost use Rattle.std.specs.Prelude.{◌<◌, ◌≤◌};
ghost use Rattle.gl_chip.specs.Values.{IsQuietDriver};
ghost use Rattle.gl_session.specs.Ports.{AreAllThere, OwnsNothing, TakeMaps};

use crate::again::give_all;
use crate::frames::put_texts;
use crate::run_parameters::{RunParameters, only};
use gl_aggregator::laws::own_entries_are_quiet;
use gl_aggregator::{AggDriver, AggPort};
use gl_base::{Errno, put_decimal};
use gl_core::Core;
use gl_driver::{Driver, Port, SimDriver, SimPort};
use gl_io::{MemSink, MemSource};
use gl_served::{Ended, Served, serve};
use gl_session::run;
use std::alloc::Global;
use std::sync::Wait;
use std::thread::Threads;
use std::{array, str};

/// A session's name and its bytes.
#[derive(Drop)]
pub struct Session {
    name: Vec<u8>,
    bytes: Vec<u8>,
}

impl Session {
    /// A session without a name and without bytes.
    pub fn new(alloc: Global) -> Session {
        Session {
            name: Vec::new(alloc),
            bytes: Vec::new(alloc),
        }
    }

    /// Begins another session.
    pub fn begin(&mut self, name: &[u8]) -> Result<(), Errno> {
        self.name.clear();
        self.bytes.clear();
        self.name.extend_from_slice(name)?;
        Ok(())
    }

    /// Adds bytes to the session.
    pub fn add(&mut self, text: &[u8]) -> Result<(), Errno> {
        self.bytes.extend_from_slice(text)?;
        Ok(())
    }

    /// Adds a line so many times, where both are told.
    pub fn add_lines(&mut self, count: Option<u64>, text: Option<&[u8]>) -> Result<(), Errno> {
        if let (Some(count), Some(text)) = (count, text) {
            for _ in 0..count {
                self.add(text)?;
                self.add(b"\n")?;
            }
        }
        Ok(())
    }

    /// Makes another session's bytes what is to be judged: this one, and an output of its run.
    pub fn put_printed(&self, output: &[u8], printed: &mut Session) -> Result<(), Errno> {
        printed.begin(&self.name)?;
        printed.add(b"check ")?;
        put_decimal(self.bytes.len() as u64, &mut printed.bytes)?;
        printed.add(b"\n")?;
        printed.add(&self.bytes)?;
        printed.add(output)
    }

    /// Runs the session as planned, and appends its name, its status and what was written.
    pub fn put_run<R: Threads + Wait + Sync>(
        &self,
        rt: &R,
        parameters: &RunParameters<'_>,
        out: &mut Vec<u8>,
    ) -> Result<(), Errno>
        requires { 0 < parameters.now.piece }
    {
        let mut source = self.source(*out.allocator(), parameters)?;
        self.put_run_from(rt, parameters, &mut source, out)
    }

    /// The same from a source.
    fn put_run_from<R: Threads + Wait + Sync>(
        &self,
        rt: &R,
        parameters: &RunParameters<'_>,
        source: &mut MemSource,
        out: &mut Vec<u8>,
    ) -> Result<(), Errno>
        requires { 0 < parameters.now.piece }
    {
        let alloc = *out.allocator();
        let mut sink = parameters.sink(alloc)?;
        let number = run_aggregated(rt, alloc, parameters, source, &mut sink);
        self.put_ended(number, sink.as_slice(), out)
    }

    /// Serves the session as planned, line by line, and appends its name, its status and the frames that were written.
    pub fn put_frames(&self, parameters: &RunParameters<'_>, out: &mut Vec<u8>) -> Result<(), Errno>
        requires { 0 < parameters.now.piece }
    {
        let mut frames = Vec::new(*out.allocator());
        let number = self.serve(parameters, &mut frames)?;
        self.put_ended(number, &frames, out)
    }

    /// The same, with what the frames hold in place of them.
    pub fn put_texts(&self, parameters: &RunParameters<'_>, out: &mut Vec<u8>) -> Result<(), Errno>
        requires { 0 < parameters.now.piece }
    {
        let mut texts = Vec::new(*out.allocator());
        let number = self.serve_texts(parameters, &mut texts)?;
        self.put_ended(number, &texts, out)
    }

    /// Gives the session's lines to a served session, each again where memory was refused to it, and appends its name, the
    /// number of how they came to their answers, and what they printed.
    pub fn put_again(&self, out: &mut Vec<u8>) -> Result<(), Errno> {
        let mut served = Served::new(*out.allocator())?;
        self.put_again_by(&mut served, out)
    }

    /// The same by this served session.
    fn put_again_by(&self, served: &mut Served, out: &mut Vec<u8>) -> Result<(), Errno> {
        let mut texts = Vec::new(*out.allocator());
        let given = give_all(served, &self.bytes, &mut texts);
        self.put_ended(given.number(), &texts, out)
    }

    /// Serves the session as planned, and appends what its frames hold: the number of its end.
    fn serve_texts(&self, parameters: &RunParameters<'_>, texts: &mut Vec<u8>) -> Result<u8, Errno>
        requires { 0 < parameters.now.piece }
    {
        let mut frames = Vec::new(*texts.allocator());
        let number = self.serve(parameters, &mut frames)?;
        put_texts(&frames, texts)?;
        Ok(number)
    }

    /// Serves the session as planned, and appends what was written: the number of its end.
    fn serve(&self, parameters: &RunParameters<'_>, frames: &mut Vec<u8>) -> Result<u8, Errno>
        requires { 0 < parameters.now.piece }
    {
        let mut source = self.source(*frames.allocator(), parameters)?;
        serve_from(parameters, &mut source, frames)
    }

    /// The session's bytes as a source.
    pub fn source(&self, alloc: Global, parameters: &RunParameters<'_>) -> Result<MemSource, Errno>
        requires { 0 < parameters.now.piece }
    {
        let mut bytes = Vec::new(alloc);
        bytes.extend_from_slice(&self.bytes)?;
        Ok(MemSource::new(bytes, parameters.piece, only(parameters.read, alloc)?))
    }

    /// Appends the session's name, the number that it ended with, and a text.
    pub fn put_ended(&self, number: u8, text: &[u8], out: &mut Vec<u8>) -> Result<(), Errno> {
        out.extend_from_slice(b"== ")?;
        out.extend_from_slice(&self.name)?;
        out.extend_from_slice(b" ")?;
        put_decimal(u64::from(number), out)?;
        out.extend_from_slice(b"\n")?;
        out.extend_from_slice(text)?;
        if !text.is_empty() && !text.ends_with(b"\n") {
            out.extend_from_slice(b"\n")?;
        }
        Ok(())
    }
}

/// Serves a new session from a source to a sink as planned, and appends what was written: the number of its end.
fn serve_from(
    parameters: &RunParameters<'_>,
    source: &mut MemSource,
    frames: &mut Vec<u8>,
) -> Result<u8, Errno>
    requires { 0 < parameters.now.piece }
{
    let mut sink = parameters.sink(*frames.allocator())?;
    serve_between(source, &mut sink, frames)
}

/// The same to this sink.
fn serve_between(
    source: &mut MemSource,
    sink: &mut MemSink,
    frames: &mut Vec<u8>,
) -> Result<u8, Errno> {
    let ended = serve_new(*frames.allocator(), source, sink)?;
    frames.extend_from_slice(sink.as_slice())?;
    Ok(ended.number())
}

/// Serves a new session from a source to a sink.
fn serve_new(alloc: Global, source: &mut MemSource, sink: &mut MemSink) -> Result<Ended, Errno> {
    let mut served = Served::new(alloc)?;
    Ok(serve(alloc, &mut served, source, sink))
}

/// Runs a session from a source to a sink over a new aggregator, with these words: the number of its status.
fn run_aggregated<R: Threads + Wait + Sync>(
    rt: &R,
    alloc: Global,
    parameters: &RunParameters<'_>,
    source: &mut MemSource,
    sink: &mut MemSink,
) -> u8 {
    own_entries_are_quiet();
    let (driver, mut ports) = (AggDriver::new(SimDriver::new()), new_ports());
    let words = [text_of(parameters.words[0]), text_of(parameters.words[1])];
    let count = count_words(&words);
    number_of_run(rt, alloc, &words[..count], source, sink, driver, &mut ports)
}

/// Runs a session from a source to a sink: the number of its status.
pub fn number_of_run<R: Threads + Wait + Sync, D: Driver<Core>>(
    rt: &R,
    alloc: Global,
    words: &[&str],
    source: &mut MemSource,
    sink: &mut MemSink,
    driver: D,
    ports: &mut [Option<D::Port>],
) -> u8
    requires none { OwnsNothing D.OwnEntries }
    requires quiet { IsQuietDriver D.OwnEntries }
    requires few_own { D.ENTRIES ≤ 8 }
    requires bare { TakeMaps D.Port.maps D.Port.maps_left ports.old }
    requires ports { AreAllThere ports.old }
{
    run(rt, alloc, words, source, sink, driver, ports).number()
}

/// A word as text.
fn text_of(word: &[u8]) -> &str {
    str::from_utf8(word).unwrap_or("?")
}

/// How many words stand in front of the first empty one.
fn count_words(words: &[&str; 2]) -> usize
    ensures { result ≤ 2 }
{
    if words[0].is_empty() {
        0
    } else if words[1].is_empty() {
        1
    } else {
        2
    }
}

/// 17 new ports of an aggregator over the simulated driver.
fn new_ports() -> [Option<AggPort<SimPort>>; 17]
    ensures there { AreAllThere result }
    ensures bare { TakeMaps (⟦<AggPort<SimPort> as Port>⟧.maps) (⟦<AggPort<SimPort> as Port>⟧.maps_left) result }
{
    array::from_fn(|_| Some(AggPort::new(SimPort::new())))
}
