//! The core as a machine.

ghost use Rattle.std.specs.Prelude.{◌≡◌, ◌++◌, IfOk, IsOkUnless, drop, length};
ghost use Rattle.gl_debounce.specs.Earliest.{earliest};
ghost use Rattle.gl_model.specs.Chips.{phase_at};
ghost use Rattle.gl_model.specs.Entries.{awaited_call, begins, begun_places, ends, guarded_place, is_last_removal, last_call, refused_place};
ghost use Rattle.gl_model.specs.Fits.{Fits, FitsCall, Leaves};
ghost use Rattle.gl_model.specs.Holds.{HasOneHolder, OneHolder};
ghost use Rattle.gl_model.specs.Machine.{bytes_of, remover_of, reply_of, world_after};
ghost use Rattle.gl_model.specs.Rings.{GapsAreOldest, ReadsInOrder, ReadsSpellEvents};
ghost use Rattle.gl_model.specs.Sound.{IsSound};
ghost use Rattle.gl_model.specs.World.{World, opening};
ghost use Rattle.gl_model.proofs.MachineLaws.{machine_laws};
ghost use Rattle.gl_model.proofs.PhaseLaws.{never_both};
ghost use Rattle.gl_core.specs.Kept.{StandsFor};
ghost use Rattle.gl_core.specs.Steps.{Tells};

use crate::entries;
use crate::state::State;
use gl_base::{Errno, Phase};
use gl_model::{Call, Gift, Image, Reply};
use gl_world::Machine;
use std::alloc::Global;
use std::marker::Model;

/// The machine, as code. Contracts see it as what is kept of a world (`specs/Kept`), which stands for worlds. A call may lead
/// to it as it is at every moment (`specs/Reached`): it stands for a world that calls in range lead to.
#[derive(Drop)]
pub struct Core {
    pub(crate) state: State,
}

impl Model for Core {
    ghost use Rattle.gl_core.specs.Kept.{Kept};
    ghost use Rattle.gl_core.specs.Reached.{IsReached};

    ghost Value = { Kept };

    ghost view = { λ c. c.state };

    ghost invariant = { λ c. IsReached c.state };
}

impl Image for Core {
    ghost stands_for = { StandsFor };
}

/// Its ghost members are those of the machine over worlds (`machine StandsFor`, `gl_model`, `specs/Machine`), and so are its laws.
impl Machine for Core {
    type Call = Call;

    type Reply = Reply;

    type Gift = Gift;

    ghost World = { World };

    ghost opening = { opening };

    ghost stands_for = { StandsFor };

    ghost Sound = { IsSound };

    ghost world_after = { world_after };

    ghost reply_of = { reply_of };

    ghost bytes_of = { bytes_of };

    ghost FitsCall = { FitsCall };

    ghost Fits = { Fits };

    ghost Leaves = { Leaves };

    ghost begins = { begins };

    ghost ends = { ends };

    ghost place_of = { guarded_place };

    ghost refused_at = { refused_place };

    ghost phase_of = { phase_at };

    ghost remover_of = { remover_of };

    ghost is_last_removal = { is_last_removal };

    ghost begun_places = { begun_places };

    ghost last_call = { last_call };

    ghost awaited_call = { awaited_call };

    /// Makes a call for an actor, as the machine does. The other clauses are the laws of its steps, over every legal history and
    /// every list of events. No two holds have the same place and offset, neither in the worlds that the core stands for nor in any
    /// that a legal history leads to. What all reads of a request gave, joined in order, are some of its events in order, and each
    /// read wrote the events that it gave. While a request is there, an event is neither read nor waiting exactly where the event as
    /// many numbers later as its ring has places came before it was read.
    fn step(&mut self, actor: u8, call: &Call, gift: &mut Gift, out: &mut [u8]) -> Reply
        requires { Fits call.now gift.old out.old }
        ensures world { (w : World) → StandsFor self.old w → StandsFor self.new (world_after w actor call.now) }
        ensures reply { (w : World) → StandsFor self.old w → result ≡ reply_of w actor call.now }
        ensures bytes { (w : World) → StandsFor self.old w
            → let bytes = bytes_of w actor call.now in out.new ≡ bytes ++ drop (length bytes) out.old }
        ensures gift { Leaves call.now result gift.old gift.new }
        ensures one_holder { (w : World) → StandsFor self.new w → HasOneHolder w }
        ensures always_one_holder { OneHolder StandsFor }
        ensures reads_in_order { ReadsInOrder StandsFor }
        ensures reads_spell_events { ReadsSpellEvents }
        ensures gaps_are_oldest { GapsAreOldest StandsFor }
    {
        self.state.step(actor, call, gift, out)
    }

    fn phase(&self, place: u8) -> Phase {
        self.state.phase(place)
    }

    fn place_of(call: &Call) -> Option<u8> {
        entries::place_of(call)
    }

    fn begins(call: &Call, reply: &Reply) -> bool {
        entries::begins(call, reply)
    }

    fn ends(call: &Call) -> bool {
        entries::ends(call)
    }

    ghost fits_calls = { λ call gift out fits. fits.fits_call };

    ghost ends_not_begins = { never_both };

    ghost opens_sound = { (machine_laws StandsFor).opens_sound };

    ghost keeps_sound = { (machine_laws StandsFor).keeps_sound };

    ghost opens_places = { (machine_laws StandsFor).opens_places };

    ghost goes_forward = { (machine_laws StandsFor).goes_forward };

    ghost ends_place = { (machine_laws StandsFor).ends_place };

    ghost begins_place = { (machine_laws StandsFor).begins_place };

    ghost begins_removal = { (machine_laws StandsFor).begins_removal };

    ghost removal_stays = { (machine_laws StandsFor).removal_stays };

    ghost ends_removal = { (machine_laws StandsFor).ends_removal };
}

impl Core {
    /// A machine as it opens: without a chip, an open file or a directory. It takes all memory that its calls need, except for
    /// the gifts that some of them bring, and fails only when out of memory.
    pub fn new(alloc: Global) -> Result<Core, Errno>
        ensures ok { IfOk result (λ core. StandsFor core opening) }
        ensures memory_alone { IsOkUnless result Errno.NoMemory }
    {
        let state = State::new(alloc)?;
        Ok(Core { state })
    }

    /// The earliest deadline of all lines, in nanoseconds of the monotonic clock, or None where no line has one.
    pub fn due(&self) -> Option<u64>
        ensures { Tells (λ w. earliest w.timers) self.now result }
    {
        self.state.timers.earliest()
    }
}
