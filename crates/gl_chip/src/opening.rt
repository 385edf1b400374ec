//! Opening chips. This call takes no guard.

ghost use Rattle.std.specs.Prelude.{◌≡◌, ◌≢◌, ◌↔◌, ◌<◌, ◌^◌, ℕ, [], true, Some, Err, IfOk};
ghost use Rattle.gl_base.specs.ChipWord.{chip_number_of};
ghost use Rattle.gl_base.specs.declared.errno.Errno.TheVariants.{Full, NoDev, NoMemory};
ghost use Rattle.gl_base.specs.declared.limits.TheConstants.{PLACES};
ghost use Rattle.gl_gate.specs.Calls.{KnowsTheSame};
ghost use Rattle.gl_model.specs.declared.call.Call.TheVariants.{OpenChip};
ghost use Rattle.gl_model.specs.declared.reply.Reply.TheVariants.{Number};
ghost use Rattle.gl_model.specs.declared.device_call.DeviceCall.TheVariants.{Once};
ghost use Rattle.gl_model.specs.Replies.{has_form};
ghost use Rattle.gl_model.specs.Written.{number_answered};
ghost use Rattle.gl_chip.specs.Called.{ComesOut};
ghost use Rattle.gl_asking.specs.Opened.{opened_of, place_named};
ghost use Rattle.gl_chip.specs.Opened.{LastFinds, names_leaving};
ghost use Rattle.gl_chip.specs.Values.{IsActorOf, IsSameActor};

use crate::actor::Actor;
use crate::files::ChipFd;
use crate::gpio::Gpio;
use gl_asking::place_named;
use gl_base::{Errno, Path};
use gl_core::fits::gift_for;
use gl_core::{Call, Core, Reply};
use gl_driver::Driver;
use std::alloc::Global;
use std::sync::Wait;

/// The file of a chip that was opened by this word, or why it wasn't.
fn opened(word: &Path, reply: Reply) -> Result<ChipFd, Errno>
    requires form { has_form (OpenChip word.now) reply ≡ true }
    requires number { number_answered reply < 2 ^ 32 }
    requires place { (fd : ℕ) → reply ≡ Number fd → place_named word.now < PLACES }
    ensures { result ≡ opened_of word.now reply }
{
    match reply {
        Reply::Refused(errno) => Err(errno),
        Reply::Number(number) => Ok(ChipFd {
            place: place_named(word),
            fd: number as u32,
        }),
        _ => unreachable!(),
    }
}

impl<D: Driver<Core>> Gpio<D> {
    /// Opens the chip that a word names: by its number, its name, or its path below `/dev/`. When out of memory, nothing was
    /// done.
    ///
    /// `NoEnt` where no chip that is up or leaving has the word; `NoDev` where the chip is leaving; `MFile` where there is no
    /// number for the file; `NoMemory` when out of memory; `Full` where the history is full.
    pub fn open_chip<R: Wait>(
        &self,
        rt: &R,
        alloc: Global,
        actor: &mut Actor<D>,
        word: &Path,
    ) -> Result<ChipFd, Errno>
        requires actor { IsActorOf self.now actor.old }
        ensures actor { IsActorOf self.now actor.new }
        ensures same { IsSameActor actor.old.pass.view actor.new.pass.view }
        ensures port { actor.new.port ≡ actor.old.port }
        ensures places { KnowsTheSame actor.old.pass.view actor.new.pass.view }
        ensures memory { result ≡ Err NoMemory → actor.new ≡ actor.old }
        ensures called { result ≢ Err NoMemory
            → ComesOut (opened_of word.now) result actor.old.pass.view (Once (OpenChip word.now)) [] actor.new.pass.view }
        ensures place { IfOk result (λ file. chip_number_of word.now ≡ Some file.place) }
        ensures leaving { result ≢ Err NoMemory → result ≢ Err Full
            → ((result ≡ Err NoDev) ↔ LastFinds (names_leaving word.now) actor.new.pass.view.seen) }
    {
        let call = Call::OpenChip { word: *word };
        match gift_for(&call, alloc) {
            Err(errno) => Err(errno),
            Ok(mut gift) => match self.plain(rt, actor, &call, &mut gift) {
                Ok(reply) => opened(word, reply),
                Err(errno) => Err(errno),
            },
        }
    }
}
