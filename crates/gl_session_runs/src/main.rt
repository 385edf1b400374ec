//! Plays sessions in memory, and tells how each of them ended and what it wrote.
//!
//! A line `session NAME` begins a session without bytes. A line `|TEXT` adds TEXT and the end of a line to it, a line `:TEXT` adds
//! TEXT alone, and a line `*COUNT TEXT` adds TEXT and the end of a line so many times. A line `play PIECE ROOM READ WRITE` runs it: no call
//! moves more than PIECE bytes, the sink has room for ROOM bytes, and the call READ of the source and the call WRITE of the sink fail,
//! counted from 0, `-` none of them. Up to two further words are words of the program. A line `serve ..` serves it in the same way, line by
//! line, and so does `frames ..`. A line `again` gives its lines to a served session, each once more where memory was refused to it; then
//! the status is 1, or 2 where that line had been begun, and another one had to wait.
//! A line `meet CALLS ROOM FRONT` runs it over a driver that answers its first call once CALLS were made, each of another actor, and tells
//! no more than FRONT bytes of what the sink held, since the history of such a run differs from run to run. Then it is judged, and so it is
//! told. A line `ring ROOM BEGINNINGS` runs it over a driver by whose calls actors wait for each other (`bells.rt`), and tells what is the
//! same in every run (`same.rt`).
//! What is told of a run is a line with its name and its status, and what the sink held in the end; of `serve` what its frames hold, and of
//! `again` what the lines print.
#![tactic(auto)]

mod again;
mod bells;
mod frames;
mod meeting;
mod play;
mod run_parameters;
mod same;

use gl_base::{Errno, read_decimal, split_first};
use meeting::Meeting;
use play::Session;
use run_parameters::RunParameters;
use std::io::{self, BufRead, BufReader, Write};
use std::sync::Wait;
use std::thread::Threads;

fn main(rt: HostRuntime) -> io::Result<()> {
    play_all(&rt, &rt)
}

/// Plays what the lines of the standard input say.
fn play_all<R: Threads + Wait + Sync>(rt: &R, host: &HostRuntime) -> io::Result<()> {
    let mut session = Session::new(host.alloc());
    for line in BufReader::new(host.alloc(), host.reader())?.lines(host.alloc()) {
        tell(rt, host, &mut session, line?.as_str())?;
    }
    Ok(())
}

/// Writes what is told of a line.
fn tell<R: Threads + Wait + Sync>(
    rt: &R,
    host: &HostRuntime,
    session: &mut Session,
    line: &str,
) -> io::Result<()> {
    let mut text = Vec::new(host.alloc());
    match told(rt, session, line, &mut text) {
        Ok(()) => host.stdout().write_all(&text),
        Err(errno) => host.stdout().write_all(errno.name().as_bytes()),
    }
}

/// Takes a line into the session, or plays the session as it says, and appends what is told of that.
fn told<R: Threads + Wait + Sync>(
    rt: &R,
    session: &mut Session,
    line: &str,
    out: &mut Vec<u8>,
) -> Result<(), Errno> {
    let line = line.as_bytes();
    if let Some(text) = line.strip_prefix(b"|") {
        session.add(text)?;
        session.add(b"\n")
    } else if let Some(text) = line.strip_prefix(b":") {
        session.add(text)
    } else if let Some(many) = line.strip_prefix(b"*") {
        let (count, text) = split_first(many, b' ');
        session.add_lines(read_decimal(count), text)
    } else if let Some(name) = line.strip_prefix(b"session ") {
        session.begin(name)
    } else if let Some(parameters) = RunParameters::of(b"play ", line) {
        session.put_run(rt, &parameters, out)
    } else if let Some(meeting) = Meeting::of(line) {
        session.put_meeting(rt, &meeting, out)
    } else if let Some(parameters) = RunParameters::of(b"serve ", line) {
        session.put_texts(&parameters, out)
    } else if let Some(parameters) = RunParameters::of(b"frames ", line) {
        session.put_frames(&parameters, out)
    } else if line == b"again".as_slice() {
        session.put_again(out)
    } else {
        out.extend_from_slice(b"no such line\n")?;
        Ok(())
    }
}
