//! Orders as the public calls give them, by what their callers get: one call of the machine, and a removal.

ghost use Rattle.std.specs.Prelude.{◌≡◌, ◌≢◌, ◌++◌, ℕ, List, [], true, false, None, length, drop, IfOk, IfErr};
ghost use Rattle.gl_base.specs.declared.errno.Errno.{Errno as AnErrno};
ghost use Rattle.gl_base.specs.declared.errno.Errno.TheVariants.{Full};
ghost use Rattle.gl_model.specs.Entries.{guarded_place, is_done};
ghost use Rattle.gl_model.specs.Fits.{Fits};
ghost use Rattle.gl_model.specs.declared.device_call.DeviceCall.TheVariants.{Once, Removing};
ghost use Rattle.gl_model.specs.declared.reply.Reply.TheVariants.{Refused};
ghost use Rattle.gl_model.specs.Parts.{is_single};
ghost use Rattle.gl_asking.specs.Fitting.{FitsDevice};
ghost use Rattle.gl_asking.specs.Results.{done_of};
ghost use Rattle.gl_chip.specs.Called.{ComesOut, HasCalled};
ghost use Rattle.gl_chip.specs.Calling.{Answers, KnowsBy, WroteBy};
ghost use Rattle.gl_chip.specs.Orders.{IsGoneBy, KnowsRemoved};
ghost use Rattle.gl_chip.specs.Removals.{AllDrained, RemovedBy};
ghost use Rattle.gl_chip.specs.Steps.{FoundNoRoom};
ghost use Rattle.gl_chip.specs.Values.{IsActorOf, IsSameActor};
ghost use Rattle.gl_core.specs.Device.{core};

use crate::actor::Actor;
use crate::gpio::Gpio;
use crate::orders::CallOn;
use gl_asking::{FileKind, results};
use gl_base::Errno;
use gl_core::{Call, Core, Gift, Reply};
use gl_driver::Driver;
use gl_model::{DeviceCall, RemovalOf};
use std::sync::Wait;

impl<D: Driver<Core>> Gpio<D> {
    /// One call of the machine that is whole by itself, with the memory that it brings and a buffer of the length that it names.
    ///
    /// Where its guard is closed it is answered `NoDev`, and a poll 6, as a reply. `Full` where the history is full; that is its only
    /// error.
    pub(crate) fn one_call<R: Wait>(
        &self,
        rt: &R,
        actor: &mut Actor<D>,
        call: &Call,
        gift: &mut Gift,
        out: &mut [u8],
    ) -> Result<Reply, Errno>
        requires actor { IsActorOf self.now actor.old }
        requires single { is_single call.now ≡ true }
        requires fits { Fits call.now gift.old out.old }
        ensures actor { IsActorOf self.now actor.new }
        ensures same { IsSameActor actor.old.pass.view actor.new.pass.view }
        ensures port { actor.new.port ≡ actor.old.port }
        ensures places { KnowsBy (guarded_place call.now) actor.old.pass.view actor.new.pass.view }
        ensures called { IfOk result (λ r. (bytes : List ℕ) × (out.new ≡ bytes ++ drop (length bytes) out.old)
            × HasCalled 0 actor.old.pass.view (Once call.now) r bytes actor.new.pass.view) }
        ensures form { IfOk result (Answers (guarded_place call.now) call.now) }
        ensures lengths { IfOk result (WroteBy (guarded_place call.now) call.now out.old out.new) }
        ensures not_full { IfOk result (λ r. r ≢ Refused Full) }
        ensures full { IfErr result (λ e. (e ≡ Full) × (out.new ≡ out.old)
            × FoundNoRoom core actor.old.pass.view actor.new.pass.view) }
    {
        let order = CallOn {
            call: &DeviceCall::Once(*call),
            on: &FileKind::Chip,
        };
        match self.carry(rt, actor, &order, gift, out) {
            Ok(answered) => Ok(answered.reply),
            Err(errno) => Err(errno),
        }
    }

    /// Such a call without a buffer.
    pub(crate) fn plain<R: Wait>(
        &self,
        rt: &R,
        actor: &mut Actor<D>,
        call: &Call,
        gift: &mut Gift,
    ) -> Result<Reply, Errno>
        requires actor { IsActorOf self.now actor.old }
        requires single { is_single call.now ≡ true }
        requires fits { Fits call.now gift.old [] }
        ensures actor { IsActorOf self.now actor.new }
        ensures same { IsSameActor actor.old.pass.view actor.new.pass.view }
        ensures port { actor.new.port ≡ actor.old.port }
        ensures places { KnowsBy (guarded_place call.now) actor.old.pass.view actor.new.pass.view }
        ensures called { IfOk result (λ r. HasCalled 0 actor.old.pass.view (Once call.now) r [] actor.new.pass.view) }
        ensures form { IfOk result (Answers (guarded_place call.now) call.now) }
        ensures not_full { IfOk result (λ r. r ≢ Refused Full) }
        ensures full { IfErr result (λ e. (e ≡ Full) × FoundNoRoom core actor.old.pass.view actor.new.pass.view) }
    {
        self.one_call(rt, actor, call, gift, &mut [])
    }

    /// Such a call without a buffer that brings nothing.
    pub(crate) fn bare<R: Wait>(
        &self,
        rt: &R,
        actor: &mut Actor<D>,
        call: &Call,
    ) -> Result<Reply, Errno>
        requires actor { IsActorOf self.now actor.old }
        requires single { is_single call.now ≡ true }
        requires fits { Fits call.now (record { ring = None; queue = None; asked = None }) [] }
        ensures actor { IsActorOf self.now actor.new }
        ensures same { IsSameActor actor.old.pass.view actor.new.pass.view }
        ensures port { actor.new.port ≡ actor.old.port }
        ensures places { KnowsBy (guarded_place call.now) actor.old.pass.view actor.new.pass.view }
        ensures called { IfOk result (λ r. HasCalled 0 actor.old.pass.view (Once call.now) r [] actor.new.pass.view) }
        ensures form { IfOk result (Answers (guarded_place call.now) call.now) }
        ensures not_full { IfOk result (λ r. r ≢ Refused Full) }
        ensures full { IfErr result (λ e. (e ≡ Full) × FoundNoRoom core actor.old.pass.view actor.new.pass.view) }
    {
        let mut gift = Gift::nothing();
        self.plain(rt, actor, call, &mut gift)
    }

    /// Such a call that gives nothing.
    pub(crate) fn done_alone<R: Wait>(
        &self,
        rt: &R,
        actor: &mut Actor<D>,
        call: &Call,
    ) -> Result<(), Errno>
        requires actor { IsActorOf self.now actor.old }
        requires single { is_single call.now ≡ true }
        requires fits { Fits call.now (record { ring = None; queue = None; asked = None }) [] }
        ensures actor { IsActorOf self.now actor.new }
        ensures same { IsSameActor actor.old.pass.view actor.new.pass.view }
        ensures port { actor.new.port ≡ actor.old.port }
        ensures places { KnowsBy (guarded_place call.now) actor.old.pass.view actor.new.pass.view }
        ensures called { ComesOut done_of result actor.old.pass.view (Once call.now) [] actor.new.pass.view }
    {
        match self.bare(rt, actor, call) {
            Ok(reply) => results::done(reply),
            Err(errno) => Err(errno),
        }
    }

    /// A removal. `Full` where the history is full; that is its only error.
    pub(crate) fn remove<R: Wait>(
        &self,
        rt: &R,
        actor: &mut Actor<D>,
        removal: RemovalOf,
    ) -> Result<Reply, Errno>
        requires actor { IsActorOf self.now actor.old }
        requires fits { FitsDevice (Removing removal) }
        ensures actor { IsActorOf self.now actor.new }
        ensures same { IsSameActor actor.old.pass.view actor.new.pass.view }
        ensures port { actor.new.port ≡ actor.old.port }
        ensures called { IfOk result (λ r. (bytes : List ℕ)
            × (called : HasCalled 0 actor.old.pass.view (Removing removal) r bytes actor.new.pass.view)
            × AllDrained called.did actor.new.pass.view) }
        ensures refused { IfOk result (λ r. is_done r ≡ false → (errno : AnErrno) × (r ≡ Refused errno)) }
        ensures ended { IfOk result (λ r. RemovedBy removal r actor.old.pass.view actor.new.pass.view) }
        ensures gone { IfOk result (λ r. IsGoneBy removal r actor.new.pass.view) }
        ensures places { IfOk result (λ r. KnowsRemoved removal r actor.old.pass.view actor.new.pass.view) }
        ensures full { IfErr result (λ e. (e ≡ Full) × FoundNoRoom core actor.old.pass.view actor.new.pass.view) }
    {
        let order = CallOn {
            call: &DeviceCall::Removing(removal),
            on: &FileKind::Chip,
        };
        match self.carry(rt, actor, &order, &mut Gift::nothing(), &mut []) {
            Ok(answered) => Ok(answered.reply),
            Err(errno) => Err(errno),
        }
    }
}
