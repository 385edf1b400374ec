//! Plays runs of calls on the core, and tells what each call is answered, with all bytes of its buffer.
//!
//! A line `run NAME` begins a run on a new core, a line `end` tells whether the entries of the run are legal, and every other
//! line is an actor's call. The runs and their answers are those that `gl_model_runs` proves of the machine's definitions.
#![tactic(auto)]

mod answers;
mod calls;
mod game;
mod verbs;
mod words;

use game::Game;
use gl_base::Errno;
use std::alloc::Global;
use std::io::{self, Write};
use words::Words;

fn main(rt: HostRuntime) -> io::Result<()> {
    let mut game = None;
    play_all(&rt, &mut game)
}

/// Plays what the lines of the standard input say.
fn play_all(rt: &HostRuntime, game: &mut Option<Game>) -> io::Result<()> {
    let mut out = rt.stdout();
    for line in rt.lines(rt.alloc()) {
        let line = line?;
        play(game, line.as_str().as_bytes(), rt.alloc(), &mut out)?;
    }
    Ok(())
}

/// Plays what a line says, and writes what is told of it.
fn play<W: Write>(
    game: &mut Option<Game>,
    line: &[u8],
    alloc: Global,
    out: &mut W,
) -> io::Result<()> {
    let mut text = Vec::new(alloc);
    match told(game, line, alloc, &mut text) {
        Ok(()) => write_line(&text, out),
        Err(errno) => write_line(errno.name().as_bytes(), out),
    }
}

/// Writes a text and the end of its line.
fn write_line<W: Write>(text: &[u8], out: &mut W) -> io::Result<()> {
    out.write_all(text)?;
    out.write_all(b"\n")
}

/// What is told of a line.
fn told(
    game: &mut Option<Game>,
    line: &[u8],
    alloc: Global,
    out: &mut Vec<u8>,
) -> Result<(), Errno> {
    let words = Words::of(line);
    if words.is(0, b"run") {
        begin(game, alloc)?;
        out.extend_from_slice(line)?;
        return Ok(());
    }
    match game {
        Some(game) if words.is(0, b"end") => game.put_end(alloc, out),
        Some(game) => game.put_answer(words, alloc, out),
        None => Ok(()),
    }
}

/// Begins a run on a new core.
fn begin(game: &mut Option<Game>, alloc: Global) -> Result<(), Errno> {
    *game = Some(Game::new(alloc)?);
    Ok(())
}
