//! A run of calls on one core.

ghost use Rattle.std.specs.Prelude.{◌≡◌, length};
ghost use Rattle.gl_model.specs.Fits.{FitsCall, FitsGift};
ghost use Rattle.gl_core.specs.Legal.{buffer_size};

use crate::answers::put_reply;
use crate::calls::{read_bytes, read_call};
use crate::words::Words;
use gl_base::{Errno, put_bytes, put_decimal};
use gl_core::fits::{buffer_size, fill, fits_call, gift_for};
use gl_core::laws::first_bad;
use gl_core::{Call, Core, Gift};
use gl_world::{Entry, Machine};
use std::alloc::Global;

/// A core, and the entries of its calls so far.
#[derive(Drop)]
pub struct Game {
    core: Core,
    entries: Vec<Entry<Core>>,
}

impl Game {
    /// A new core.
    pub fn new(alloc: Global) -> Result<Game, Errno> {
        Ok(Game {
            core: Core::new(alloc)?,
            entries: Vec::new(alloc),
        })
    }

    /// Appends what the call of a line is answered.
    pub fn put_answer(
        &mut self,
        words: Words<'_>,
        alloc: Global,
        out: &mut Vec<u8>,
    ) -> Result<(), Errno> {
        let bytes = read_bytes(words, alloc)?;
        match read_call(words, &bytes) {
            Some(call) if fits_call(&call) => self.put_made(words.byte(0), &call, alloc, out),
            _ => no_call(out),
        }
    }

    /// Makes a call with what it brings, and appends what is answered and the buffer behind it.
    fn put_made(
        &mut self,
        actor: u8,
        call: &Call,
        alloc: Global,
        out: &mut Vec<u8>,
    ) -> Result<(), Errno>
        requires { FitsCall call.now }
    {
        match gift_for(call, alloc) {
            Ok(mut gift) => self.put_brought(actor, call, &mut gift, out),
            Err(errno) => Err(errno),
        }
    }

    /// The same with what the call brings.
    fn put_brought(
        &mut self,
        actor: u8,
        call: &Call,
        gift: &mut Gift,
        out: &mut Vec<u8>,
    ) -> Result<(), Errno>
        requires call { FitsCall call.now }
        requires gift { FitsGift call.now gift.old }
    {
        let mut buffer = Vec::new(*out.allocator());
        match buffer.resize(buffer_size(call) as usize, 0) {
            Ok(()) => self.put_buffered(actor, call, gift, &mut buffer, out),
            Err(_) => Err(Errno::NoMemory),
        }
    }

    /// The same with a buffer of the call's size.
    fn put_buffered(
        &mut self,
        actor: u8,
        call: &Call,
        gift: &mut Gift,
        buffer: &mut [u8],
        out: &mut Vec<u8>,
    ) -> Result<(), Errno>
        requires call { FitsCall call.now }
        requires gift { FitsGift call.now gift.old }
        requires buffer { length buffer.old ≡ buffer_size call.now }
    {
        fill(buffer, call);
        let reply = self.core.step(actor, call, gift, buffer);
        self.entries.push(Entry {
            actor,
            call: *call,
            reply,
        })?;
        put_reply(&reply, out)?;
        put_buffer(buffer, out)
    }

    /// Appends whether the entries are legal, or which of them is the first bad one.
    pub fn put_end(&self, alloc: Global, out: &mut Vec<u8>) -> Result<(), Errno> {
        if self.entries.len() > 1000 {
            return no_call(out);
        }
        match first_bad(&self.entries, alloc)? {
            None => {
                out.extend_from_slice(b"legal")?;
                Ok(())
            }
            Some(at) => {
                out.extend_from_slice(b"bad at ")?;
                put_decimal(u64::from(at), out)
            }
        }
    }
}

/// Appends a buffer that isn't empty.
fn put_buffer(buffer: &[u8], out: &mut Vec<u8>) -> Result<(), Errno> {
    if buffer.is_empty() {
        return Ok(());
    }
    out.extend_from_slice(b" : ")?;
    put_bytes(buffer, out)
}

/// Says that a line has no call.
fn no_call(out: &mut Vec<u8>) -> Result<(), Errno> {
    out.extend_from_slice(b"no call")?;
    Ok(())
}
