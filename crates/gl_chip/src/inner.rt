//! The calls of the device that ask no driver: each is one entry of the history.

ghost use Rattle.std.specs.Prelude.{◌≡◌, ◌≢◌, ◌⊎◌, ◌<◌, ℕ, List, [], ◌++◌, true, false, Some, None, length, drop, IfOk, IfErr};
ghost use Rattle.gl_base.specs.declared.errno.Errno.TheVariants.{Full};
ghost use Rattle.gl_base.specs.declared.limits.TheConstants.{PLACES};
ghost use Rattle.gl_gate.specs.Calls.{KnowsTheSame};
ghost use Rattle.gl_model.specs.declared.reply.Reply.TheVariants.{Refused};
ghost use Rattle.gl_model.specs.Entries.{guarded_place};
ghost use Rattle.gl_model.specs.Fits.{Fits, Leaves};
ghost use Rattle.gl_model.specs.declared.device_call.DeviceCall.TheVariants.{Once};
ghost use Rattle.gl_model.specs.Parts.{is_poll, is_single};
ghost use Rattle.gl_model.specs.Replies.{has_form};
ghost use Rattle.gl_model.specs.Written.{bytes_written};
ghost use Rattle.gl_model.specs.Step.{guard_reply};
ghost use Rattle.gl_chip.specs.Called.{HasCalled};
ghost use Rattle.gl_chip.specs.Steps.{FoundNoRoom};
ghost use Rattle.gl_chip.specs.Values.{IsActorOf, IsSameActor};
ghost use Rattle.gl_core.specs.Device.{core};

use crate::actor::Actor;
use crate::gpio::Gpio;
use crate::guarding::{Guard, guarded};
use crate::steps::alone;
use gl_base::Errno;
use gl_core::{Call, Core, Gift, Reply};
use gl_driver::Driver;
use std::sync::Wait;

impl<D: Driver<Core>> Gpio<D> {
    /// A call that takes no guard and asks no driver.
    pub(crate) fn unguarded<R: Wait>(
        &self,
        rt: &R,
        actor: &mut Actor<D>,
        call: &Call,
        gift: &mut Gift,
    ) -> Result<Reply, Errno>
        requires actor { IsActorOf self.now actor.old }
        requires single { is_single call.now ≡ true }
        requires no_guard { guarded_place call.now ≡ None }
        requires fits { Fits call.now gift.old [] }
        ensures actor { IsActorOf self.now actor.new }
        ensures same { IsSameActor actor.old.pass.view actor.new.pass.view }
        ensures port { actor.new.port ≡ actor.old.port }
        ensures places { KnowsTheSame actor.old.pass.view actor.new.pass.view }
        ensures called { IfOk result (λ r. HasCalled 0 actor.old.pass.view (Once call.now) r [] actor.new.pass.view) }
        ensures form { IfOk result (λ r. has_form call.now r ≡ true) }
        ensures not_full { IfOk result (λ r. r ≢ Refused Full) }
        ensures gift { IfOk result (λ r. Leaves call.now r gift.old gift.new) }
        ensures full { IfErr result (λ e. (e ≡ Full) × FoundNoRoom core actor.old.pass.view actor.new.pass.view) }
    {
        alone(rt, &self.gate, &mut actor.pass, call, gift, &mut [])
    }

    /// A call behind the guard of a place that asks no driver.
    pub(crate) fn behind_guard<R: Wait>(
        &self,
        rt: &R,
        actor: &mut Actor<D>,
        guard: Guard,
        call: &Call,
        out: &mut [u8],
    ) -> Result<Reply, Errno>
        requires actor { IsActorOf self.now actor.old }
        requires place { guard.place < PLACES }
        requires single { is_single call.now ≡ true }
        requires guard { guarded_place call.now ≡ Some guard.place }
        requires poll { is_poll (Once call.now) ≡ guard.poll }
        requires tells { has_form call.now (guard_reply guard.poll) ≡ false }
        requires fits { Fits call.now (record { ring = None; queue = None; asked = None }) out.old }
        ensures actor { IsActorOf self.now actor.new }
        ensures same { IsSameActor actor.old.pass.view actor.new.pass.view }
        ensures port { actor.new.port ≡ actor.old.port }
        ensures called { IfOk result (λ r. (bytes : List ℕ) × (out.new ≡ bytes ++ drop (length bytes) out.old)
            × HasCalled 0 actor.old.pass.view (Once call.now) r bytes actor.new.pass.view) }
        ensures lengths { IfOk result (λ r. (bytes : List ℕ) × (out.new ≡ bytes ++ drop (length bytes) out.old)
            × ((r ≡ guard_reply guard.poll) ⊎ (length bytes ≡ bytes_written call.now r))) }
        ensures form { IfOk result (λ r. (r ≡ guard_reply guard.poll) ⊎ (has_form call.now r ≡ true)) }
        ensures not_full { IfOk result (λ r. r ≢ Refused Full) }
        ensures full { IfErr result (λ e. (e ≡ Full) × (out.new ≡ out.old)
            × FoundNoRoom core actor.old.pass.view actor.new.pass.view) }
    {
        guarded(rt, &self.gate, &mut actor.pass, guard, call, out)
    }
}
