//! Histories, made again.

ghost use Rattle.std.specs.Prelude.{◌≡◌, ◌<◌, ◌≤◌, ◌^◌, ◌++◌, true, drop, length, IfOk, IfSome, IsOkUnless};
ghost use Rattle.std.specs.Bool.{Decides};
ghost use Rattle.gl_world.specs.Ranks.{IsClosing, IsNotGone, rank};
ghost use Rattle.gl_model.specs.Chips.{phase_at};
ghost use Rattle.gl_model.specs.World.{World, opening};
ghost use Rattle.gl_core.specs.Kept.{StandsFor};
ghost use Rattle.gl_model.specs.Fits.{Fits, FitsBuffer, FitsCall};
ghost use Rattle.gl_model.specs.Machine.{bytes_of, reply_of, world_after};
ghost use Rattle.gl_core.specs.Legal.{FindsPlace, GoesOn, IsFirstBad};

use crate::entries::{place_of, refused_at};
use crate::fits::{buffer_size, fill, fits_call, gift_for};
use crate::machine::Core;
use crate::state::State;
use gl_base::{Errno, Phase};
use gl_model::{Call, Gift};
use gl_world::{Entry, Machine};
use std::alloc::Global;

/// The first entry at which a history stops being legal, counted from 0, and none where it is legal. An entry is bad whose
/// call is out of range, or has another reply than the machine's; a guarded call on a place that is Gone; and a recorded
/// refusal on a place that is neither Leaving nor Gone. The history is made again on a core of its own, in one pass. It fails
/// only when out of memory.
pub fn first_bad(history: &[Entry<Core>], alloc: Global) -> Result<Option<u32>, Errno>
    requires { length history.now < 2 ^ 32 }
    ensures first { IfOk result (IsFirstBad StandsFor history.now) }
    ensures memory_alone { IsOkUnless result Errno.NoMemory }
{
    let mut core = Core::new(alloc)?;
    core.replay(history, alloc)
}

impl Core {
    /// The first entry at which a history stops being legal, which is made again on this core, a new one, with a buffer of its own.
    fn replay(&mut self, history: &[Entry<Core>], alloc: Global) -> Result<Option<u32>, Errno>
        requires few { length history.now < 2 ^ 32 }
        requires opens { StandsFor self.old opening }
        ensures first { IfOk result (IsFirstBad StandsFor history.now) }
        ensures memory_alone { IsOkUnless result Errno.NoMemory }
    {
        let mut buffer = Vec::new(alloc);
        self.first_bad(history, &mut buffer, alloc)
    }

    /// The first entry at which a history stops being legal, which is made again on this core, a new one.
    fn first_bad(
        &mut self,
        history: &[Entry<Core>],
        buffer: &mut Vec<u8>,
        alloc: Global,
    ) -> Result<Option<u32>, Errno>
        requires few { length history.now < 2 ^ 32 }
        requires opens { StandsFor self.old opening }
        ensures first { IfOk result (IsFirstBad StandsFor history.now) }
        ensures memory_alone { IsOkUnless result Errno.NoMemory }
    {
        for i in 0..history.len() {
            if !self.goes_on(&history[i], buffer, alloc)? {
                return Ok(Some(i as u32));
            }
        }
        Ok(None)
    }

    /// Whether a history that led to the core may go on with an entry. If so, the core makes the entry's call, and what the machine writes
    /// there stands at the start of the call's buffer; after that the buffer stays. It fails only when out of memory. After `false` or a
    /// failure nothing is said of the core and of the buffer any more.
    pub fn goes_on_into(
        &mut self,
        entry: &Entry<Core>,
        out: &mut [u8],
        alloc: Global,
    ) -> Result<bool, Errno>
        requires { FitsBuffer entry.now.call out.old }
        ensures told { IfOk result (λ good. (w : World) → StandsFor self.old w → Decides good (GoesOn w entry.now.actor entry.now.call entry.now.reply)) }
        ensures world { IfOk result (λ good. (w : World) → StandsFor self.old w → good ≡ true → StandsFor self.new (world_after w entry.now.actor entry.now.call)) }
        ensures bytes { IfOk result (λ good. (w : World) → StandsFor self.old w → good ≡ true
            → let bytes = bytes_of w entry.now.actor entry.now.call in out.new ≡ bytes ++ drop (length bytes) out.old) }
        ensures memory_alone { IsOkUnless result Errno.NoMemory }
    {
        if !fits_call(&entry.call) || !self.state.finds_place(&entry.call) {
            return Ok(false);
        }
        self.make(entry, out, alloc)
    }

    /// Whether a history that led to the core may go on with an entry. If so, the core makes the entry's call.
    fn goes_on(
        &mut self,
        entry: &Entry<Core>,
        buffer: &mut Vec<u8>,
        alloc: Global,
    ) -> Result<bool, Errno>
        ensures told { IfOk result (λ good. (w : World) → StandsFor self.old w → Decides good (GoesOn w entry.now.actor entry.now.call entry.now.reply)) }
        ensures world { IfOk result (λ good. (w : World) → StandsFor self.old w → good ≡ true → StandsFor self.new (world_after w entry.now.actor entry.now.call)) }
        ensures memory_alone { IsOkUnless result Errno.NoMemory }
    {
        if !fits_call(&entry.call) || !self.state.finds_place(&entry.call) {
            return Ok(false);
        }
        let size = buffer_size(&entry.call);
        make_room(buffer, size)?;
        let out = &mut buffer[..size as usize];
        fill(out, &entry.call);
        self.make(entry, out, alloc)
    }

    /// Makes the call of an entry, with the memory that it needs, and tells whether it is answered as the entry says.
    fn make(&mut self, entry: &Entry<Core>, out: &mut [u8], alloc: Global) -> Result<bool, Errno>
        requires fits { FitsCall entry.now.call }
        requires buffer { FitsBuffer entry.now.call out.old }
        ensures replied { IfOk result (λ good. (w : World) → StandsFor self.old w → Decides good (entry.now.reply ≡ reply_of w entry.now.actor entry.now.call)) }
        ensures world { IfOk result (λ _. (w : World) → StandsFor self.old w → StandsFor self.new (world_after w entry.now.actor entry.now.call)) }
        ensures bytes { IfOk result (λ _. (w : World) → StandsFor self.old w
            → let bytes = bytes_of w entry.now.actor entry.now.call in out.new ≡ bytes ++ drop (length bytes) out.old) }
        ensures memory_alone { IsOkUnless result Errno.NoMemory }
    {
        let mut gift = gift_for(&entry.call, alloc)?;
        Ok(self.answers_as(entry, &mut gift, out))
    }

    /// Makes the call of an entry, and tells whether it is answered as the entry says.
    fn answers_as(&mut self, entry: &Entry<Core>, gift: &mut Gift, out: &mut [u8]) -> bool
        requires { Fits entry.now.call gift.old out.old }
        ensures replied { (w : World) → StandsFor self.old w → Decides result (entry.now.reply ≡ reply_of w entry.now.actor entry.now.call) }
        ensures world { (w : World) → StandsFor self.old w → StandsFor self.new (world_after w entry.now.actor entry.now.call) }
        ensures bytes { (w : World) → StandsFor self.old w
            → let bytes = bytes_of w entry.now.actor entry.now.call in out.new ≡ bytes ++ drop (length bytes) out.old }
    {
        let reply = self.step(entry.actor, &entry.call, gift, out);
        reply == entry.reply
    }
}

/// Gives a buffer at least so many bytes.
fn make_room(buffer: &mut Vec<u8>, size: u32) -> Result<(), Errno>
    ensures room { IfOk result (λ _. size ≤ length buffer.new.items) }
    ensures memory_alone { IsOkUnless result Errno.NoMemory }
{
    if buffer.len() < size as usize {
        buffer.resize(size as usize, 0)?;
    }
    Ok(())
}

impl State {
    /// Whether a call finds its place as it has to: one that needs a guard finds it not Gone, and one that was refused at a
    /// closed guard finds it Leaving or Gone.
    pub(crate) fn finds_place(&self, call: &Call) -> bool
        ensures { (w : World) → StandsFor self.now w → Decides result (FindsPlace w call.now) }
    {
        self.is_not_gone(place_of(call)) && self.is_closing(refused_at(call))
    }

    /// Whether a place, where there is one, isn't Gone.
    fn is_not_gone(&self, place: Option<u8>) -> bool
        ensures { (w : World) → StandsFor self.now w → Decides result (IfSome place (λ p. IsNotGone (rank (phase_at w p)))) }
    {
        match place {
            Some(place) => self.phase(place) != Phase::Gone,
            None => true,
        }
    }

    /// Whether a place, where there is one, is Leaving or Gone.
    fn is_closing(&self, place: Option<u8>) -> bool
        ensures { (w : World) → StandsFor self.now w → Decides result (IfSome place (λ p. IsClosing (rank (phase_at w p)))) }
    {
        match place {
            Some(place) => matches!(self.phase(place), Phase::Leaving | Phase::Gone),
            None => true,
        }
    }
}
