//! Removals: the first entry, then each place closed and drained, then the last entry.

ghost use Rattle.std.specs.Prelude.{◌≡◌, ◌↔◌, ℕ, ◌+◌, ◌<◌, ◌≤◌, List, [], true, false, IfOk, IfErr};
ghost use Rattle.gl_base.specs.declared.errno.Errno.{Errno as AnErrno};
ghost use Rattle.gl_base.specs.declared.errno.Errno.TheVariants.{Full, NoDev};
ghost use Rattle.gl_world.specs.History.{Legal, fold};
ghost use Rattle.gl_world.specs.Removal.{Removes};
ghost use Rattle.gl_gate.specs.Values.{IsPassOf};
ghost use Rattle.gl_gate.specs.Grown.{IsFree};
ghost use Rattle.gl_gate.specs.Calls.{KnowsClosed, KnowsDrained, KnowsTheSame};
ghost use Rattle.gl_model.specs.declared.call.Call.TheVariants.{Unplug as UnplugCall};
ghost use Rattle.gl_model.specs.declared.reply.Reply.TheVariants.{Refused};
ghost use Rattle.gl_model.specs.Entries.{is_done};
ghost use Rattle.gl_model.specs.Fits.{FitsCall};
ghost use Rattle.gl_model.specs.declared.device_call.DeviceCall.TheVariants.{Removing};
ghost use Rattle.gl_chip.specs.Called.{HasCalled};
ghost use Rattle.gl_chip.specs.Opened.{LastFinds};
ghost use Rattle.gl_chip.specs.Removals.{AllDrained, HasBegun, HasDrained, HasEnded, RemovedBy, is_first_call, is_gone_outside, removal_of};
ghost use Rattle.gl_chip.specs.Steps.{FoundNoRoom};
ghost use Rattle.gl_chip.specs.Values.{IsActorOf, IsIdle, IsSameActor};
ghost use Rattle.gl_core.specs.Device.{core};

use crate::actor::Actor;
use crate::gpio::Gpio;
use gl_asking::parts::last_call;
use gl_base::Errno;
use gl_core::{Call, Core, Gift, Reply};
use gl_driver::Driver;
use gl_gate::{Gate, Pass};
use gl_world::Machine;
use std::sync::Wait;

/// Closes a place whose removal the pass has begun, and waits until nobody is inside.
fn close_and_drain<M: Machine, R: Wait>(rt: &R, gate: &Gate<M>, pass: &mut Pass<M>, place: u8)
    requires gate { IsPassOf gate.now pass.old }
    requires place { place < gate.now.places }
    requires outside { pass.old.view.inside ≡ [] }
    requires own { Removes M.Machine (fold M.Machine pass.old.view.seen) pass.old.view.number place }
    ensures gate { IsPassOf gate.now pass.new }
    ensures drained { HasDrained M.Machine place (place + 1) pass.old.view pass.new.view }
{
    gate.close_place(pass, place);
    gate.drain(rt, pass, place);
}

/// Closes and drains so many places, one after the other.
fn close_all<M: Machine, R: Wait>(rt: &R, gate: &Gate<M>, pass: &mut Pass<M>, from: u8, count: u8)
    requires gate { IsPassOf gate.now pass.old }
    requires few { gate.now.places ≤ 64 }
    requires places { (p : ℕ) → from ≤ p → p < from + count → p < gate.now.places }
    requires outside { pass.old.view.inside ≡ [] }
    requires own { (p : ℕ) → from ≤ p → p < from + count → Removes M.Machine (fold M.Machine pass.old.view.seen) pass.old.view.number p }
    ensures gate { IsPassOf gate.now pass.new }
    ensures drained { HasDrained M.Machine from (from + count) pass.old.view pass.new.view }
{
    for step in 0..count {
        close_and_drain(rt, gate, pass, from + step);
    }
}

/// A removal was begun or ended.
fn is_done(reply: &Reply) -> bool
    ensures { result ≡ is_done reply.now }
{
    matches!(reply, Reply::Done)
}

impl<D: Driver<Core>> Gpio<D> {
    /// Closes and drains the places of a removal that has begun, and makes its last entry.
    fn end_removal<R: Wait>(
        &self,
        rt: &R,
        pass: &mut Pass<Core>,
        first: &Call,
        from: u8,
        count: u8,
        gift: &mut Gift,
    ) -> Reply
        requires gate { IsPassOf self.now pass.old }
        requires first { is_first_call first.now ≡ true }
        requires fits { FitsCall first.now }
        requires outside { pass.old.view.inside ≡ [] }
        requires begun { HasBegun from count first.now pass.old.view }
        requires legal { Legal core pass.old.view.seen }
        ensures gate { IsPassOf self.now pass.new }
        ensures free { IsFree core pass.new.view }
        ensures ended { HasEnded from count first.now pass.old.view result pass.new.view }
    {
        close_all(rt, &self.gate, pass, from, count);
        match self.gate.act(rt, pass, last_call(first), gift, &mut []) {
            Ok(reply) => reply,
            Err(_) => unreachable!(),
        }
    }

    /// A removal by a pass: its first entry and, where that is answered Done, its places closed and drained, and its last entry. No entry of
    /// a removal takes anything from the gift.
    fn remove_with<R: Wait>(
        &self,
        rt: &R,
        pass: &mut Pass<Core>,
        first: &Call,
        gift: &mut Gift,
    ) -> Result<Reply, Errno>
        requires gate { IsPassOf self.now pass.old }
        requires first { is_first_call first.now ≡ true }
        requires fits { FitsCall first.now }
        requires idle { IsIdle pass.old.view }
        ensures gate { IsPassOf self.now pass.new }
        ensures idle { IsIdle pass.new.view }
        ensures same { IsSameActor pass.old.view pass.new.view }
        ensures called { IfOk result (λ r. (bytes : List ℕ)
            × (called : HasCalled 0 pass.old.view (Removing (removal_of first.now)) r bytes pass.new.view)
            × AllDrained called.did pass.new.view) }
        ensures refused { IfOk result (λ r. is_done r ≡ false → (errno : AnErrno) × (r ≡ Refused errno)) }
        ensures ended { IfOk result (λ r. RemovedBy (removal_of first.now) r pass.old.view pass.new.view) }
        ensures places { IfOk result (λ r. is_done r ≡ false → KnowsTheSame pass.old.view pass.new.view) }
        ensures drained { IfOk result (λ r. is_done r ≡ true → (place : ℕ) → first.now ≡ UnplugCall place false
            → KnowsClosed pass.new.view place × KnowsDrained pass.new.view place) }
        ensures gone { IfOk result (λ r. (place : ℕ) → first.now ≡ UnplugCall place false
            → ((r ≡ Refused NoDev) ↔ LastFinds (is_gone_outside place) pass.new.view.seen)) }
        ensures full { IfErr result (λ e. (e ≡ Full) × FoundNoRoom core pass.old.view pass.new.view) }
    {
        // What holds of every pass is known once it has told its number.
        let _number = pass.number();
        let mut places = [0u8; 2];
        match self.gate.act(rt, pass, *first, gift, &mut places) {
            Err(errno) => Err(errno),
            Ok(reply) => {
                if !is_done(&reply) {
                    return Ok(reply);
                }
                Ok(self.end_removal(rt, pass, first, places[0], places[1], gift))
            }
        }
    }

    /// A removal: its first entry and, where that is answered Done, its places closed and drained, and its last entry.
    pub(crate) fn remove_by<R: Wait>(
        &self,
        rt: &R,
        actor: &mut Actor<D>,
        first: &Call,
    ) -> Result<Reply, Errno>
        requires actor { IsActorOf self.now actor.old }
        requires first { is_first_call first.now ≡ true }
        requires fits { FitsCall first.now }
        ensures actor { IsActorOf self.now actor.new }
        ensures same { IsSameActor actor.old.pass.view actor.new.pass.view }
        ensures port { actor.new.port ≡ actor.old.port }
        ensures called { IfOk result (λ r. (bytes : List ℕ)
            × (called : HasCalled 0 actor.old.pass.view (Removing (removal_of first.now)) r bytes actor.new.pass.view)
            × AllDrained called.did actor.new.pass.view) }
        ensures refused { IfOk result (λ r. is_done r ≡ false → (errno : AnErrno) × (r ≡ Refused errno)) }
        ensures ended { IfOk result (λ r. RemovedBy (removal_of first.now) r actor.old.pass.view actor.new.pass.view) }
        ensures places { IfOk result (λ r. is_done r ≡ false → KnowsTheSame actor.old.pass.view actor.new.pass.view) }
        ensures drained { IfOk result (λ r. is_done r ≡ true → (place : ℕ) → first.now ≡ UnplugCall place false
            → KnowsClosed actor.new.pass.view place × KnowsDrained actor.new.pass.view place) }
        ensures gone { IfOk result (λ r. (place : ℕ) → first.now ≡ UnplugCall place false
            → ((r ≡ Refused NoDev) ↔ LastFinds (is_gone_outside place) actor.new.pass.view.seen)) }
        ensures full { IfErr result (λ e. (e ≡ Full) × FoundNoRoom core actor.old.pass.view actor.new.pass.view) }
    {
        let mut gift = Gift::nothing();
        self.remove_with(rt, &mut actor.pass, first, &mut gift)
    }
}
