//! How a run goes.
ghost use Rattle.std.specs.Prelude.{◌<◌, IfSome};

use gl_base::{Errno, read_decimal, split_first};
use gl_io::MemSink;
use std::alloc::Global;

/// How a run goes.
#[derive(Clone, Copy)]
pub struct RunParameters<'a> {
    /// How many bytes a call moves at most.
    pub piece: u32,
    /// For how many bytes the sink has room.
    pub room: u32,
    /// The call of the source that fails, counted from 0.
    pub read: Option<u64>,
    /// The call of the sink that fails, counted from 0.
    pub write: Option<u64>,
    /// The program's words, at most two, each empty where there is none.
    pub words: [&'a [u8]; 2],
}

impl<'a> RunParameters<'a> {
    /// What a line `WAY PIECE ROOM READ WRITE` says, with up to two words of the program after it. The way ends with a blank.
    pub fn of(way: &[u8], line: &'a [u8]) -> Option<RunParameters<'a>>
        ensures some { IfSome result (λ parameters. 0 < parameters.piece) }
    {
        let mut rest = line.strip_prefix(way)?;
        let piece = u32::try_from(read_decimal(word(&mut rest))?).ok()?;
        let room = u32::try_from(read_decimal(word(&mut rest))?).ok()?;
        if piece == 0 {
            return None;
        }
        Some(RunParameters {
            piece,
            room,
            read: read_decimal(word(&mut rest)),
            write: read_decimal(word(&mut rest)),
            words: [word(&mut rest), word(&mut rest)],
        })
    }

    /// A sink with this room.
    pub fn sink(&self, alloc: Global) -> Result<MemSink, Errno>
        requires { 0 < self.now.piece }
    {
        let faults = only(self.write, alloc)?;
        Ok(MemSink::new(alloc, self.room, self.piece, faults)?)
    }
}

/// The list of one number, or of none.
pub fn only(number: Option<u64>, alloc: Global) -> Result<Vec<u64>, Errno> {
    let mut list = Vec::new(alloc);
    if let Some(number) = number {
        list.push(number)?;
    }
    Ok(list)
}

/// Takes the next word; the empty one after the last.
pub fn word<'a>(rest: &mut &'a [u8]) -> &'a [u8] {
    let (word, behind) = split_first(*rest, b' ');
    *rest = match behind {
        Some(behind) => behind,
        None => b"",
    };
    word
}
