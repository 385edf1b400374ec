//! One call of the machine as a call of the device: with a guard or without one, by the call itself.

ghost use Rattle.std.specs.Prelude.{◌≡◌, ◌≢◌, ◌++◌, ℕ, List, true, length, drop, IfOk, IfErr};
ghost use Rattle.gl_base.specs.declared.errno.Errno.TheVariants.{Full};
ghost use Rattle.gl_model.specs.declared.device_call.DeviceCall.TheVariants.{Once};
ghost use Rattle.gl_model.specs.declared.reply.Reply.TheVariants.{Refused};
ghost use Rattle.gl_model.specs.Entries.{guarded_place};
ghost use Rattle.gl_model.specs.Fits.{Fits};
ghost use Rattle.gl_model.specs.Parts.{is_single};
ghost use Rattle.gl_chip.specs.Called.{HasCalled};
ghost use Rattle.gl_chip.specs.Calling.{Answers, KnowsBy, WroteBy};
ghost use Rattle.gl_chip.specs.Steps.{FoundNoRoom};
ghost use Rattle.gl_chip.specs.Values.{IsActorOf, IsSameActor};
ghost use Rattle.gl_core.specs.Device.{core};

use crate::actor::Actor;
use crate::gpio::Gpio;
use crate::guarding::Guard;
use gl_asking::parts::is_poll;
use gl_base::Errno;
use gl_core::entries::place_of;
use gl_core::{Call, Core, Gift, Reply};
use gl_driver::Driver;
use std::sync::Wait;

impl<D: Driver<Core>> Gpio<D> {
    /// A call of the machine that is whole by itself, with the guard that it needs, if it needs one. It brings the memory that
    /// `gl_core::fits::gift_for` takes for it, and a buffer of the length that it names.
    ///
    /// Where its guard is closed it is answered `NoDev`, and a poll 6, as a reply. `Full` where the history is full; that is its only
    /// error.
    pub(crate) fn once<R: Wait>(
        &self,
        rt: &R,
        actor: &mut Actor<D>,
        call: &Call,
        gift: &mut Gift,
        out: &mut [u8],
    ) -> Result<Reply, Errno>
        requires actor { IsActorOf self.now actor.old }
        requires single { is_single call.now ≡ true }
        requires fits { Fits call.now gift.old out.old }
        ensures actor { IsActorOf self.now actor.new }
        ensures same { IsSameActor actor.old.pass.view actor.new.pass.view }
        ensures port { actor.new.port ≡ actor.old.port }
        ensures places { KnowsBy (guarded_place call.now) actor.old.pass.view actor.new.pass.view }
        ensures called { IfOk result (λ r. (bytes : List ℕ) × (out.new ≡ bytes ++ drop (length bytes) out.old)
            × HasCalled 0 actor.old.pass.view (Once call.now) r bytes actor.new.pass.view) }
        ensures form { IfOk result (Answers (guarded_place call.now) call.now) }
        ensures lengths { IfOk result (WroteBy (guarded_place call.now) call.now out.old out.new) }
        ensures not_full { IfOk result (λ r. r ≢ Refused Full) }
        ensures full { IfErr result (λ e. (e ≡ Full) × (out.new ≡ out.old)
            × FoundNoRoom core actor.old.pass.view actor.new.pass.view) }
    {
        match place_of(call) {
            None => self.unguarded(rt, actor, call, gift),
            Some(place) => {
                let guard = Guard {
                    place,
                    poll: is_poll(call),
                };
                self.behind_guard(rt, actor, guard, call, out)
            }
        }
    }
}
