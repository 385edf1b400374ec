//! Chips that go away: an unplugged chip, and all chips of a device of the tree.

ghost use Rattle.std.specs.Prelude.{◌≡◌, ◌≢◌, ◌↔◌, ◌<◌, [], true, false, Err, IfOk};
ghost use Rattle.gl_base.specs.declared.errno.Errno.TheVariants.{Full, NoDev};
ghost use Rattle.gl_base.specs.declared.limits.TheConstants.{PLACES};
ghost use Rattle.gl_world.specs.Events.{DrainedStaysEmpty};
ghost use Rattle.gl_rule.specs.Laws.{KnownDrainedStaysEmpty};
ghost use Rattle.gl_gate.specs.Calls.{KnowsClosed, KnowsDrained, KnowsTheSame};
ghost use Rattle.gl_model.specs.declared.call.Call.TheVariants.{Live as LiveCall};
ghost use Rattle.gl_model.specs.declared.device_call.DeviceCall.TheVariants.{Once, Removing};
ghost use Rattle.gl_model.specs.declared.device_call.RemovalOf.TheVariants.{OfChip, OfDevice};
ghost use Rattle.gl_chip.specs.Called.{ComesOut};
ghost use Rattle.gl_chip.specs.Opened.{LastFinds};
ghost use Rattle.gl_chip.specs.Removals.{EndsAsBegun, RemovesOut, is_gone_outside};
ghost use Rattle.gl_asking.specs.Results.{done_of};
ghost use Rattle.gl_chip.specs.Values.{IsActorOf, IsSameActor};
ghost use Rattle.gl_core.specs.Device.{core};

use crate::actor::Actor;
use crate::gpio::Gpio;
use gl_asking::results;
use gl_base::{Errno, Name};
use gl_core::{Call, Core};
use gl_driver::Driver;
use gl_model::RemovalOf;
use gl_rule::known_drained_stays_empty;
use gl_world::drained_stays_empty;
use std::sync::Wait;

impl<D: Driver<Core>> Gpio<D> {
    /// Removes the chip of a place that is of no device of the tree, and waits until nobody is inside. From the answer Ok on
    /// nobody is inside, whatever happens: no driver call of the chip runs, and each later guarded call there is refused.
    ///
    /// `NoEnt` where the place has no chip; `Perm` where the chip is of a device of the tree; `Busy` where it is leaving;
    /// `NoDev` where it is gone; `Full` where the history is full.
    pub fn unplug<R: Wait>(&self, rt: &R, actor: &mut Actor<D>, place: u8) -> Result<(), Errno>
        requires actor { IsActorOf self.now actor.old }
        requires place { place < PLACES }
        ensures actor { IsActorOf self.now actor.new }
        ensures same { IsSameActor actor.old.pass.view actor.new.pass.view }
        ensures port { actor.new.port ≡ actor.old.port }
        ensures called { RemovesOut result actor.old.pass.view (Removing (OfChip place)) actor.new.pass.view }
        ensures ended { result ≢ Err Full → EndsAsBegun (OfChip place) result actor.old.pass.view actor.new.pass.view }
        ensures closed { IfOk result (λ _. KnowsClosed actor.new.pass.view place) }
        ensures drained { IfOk result (λ _. KnowsDrained actor.new.pass.view place) }
        ensures stays_empty { DrainedStaysEmpty core }
        ensures nobody_inside { KnownDrainedStaysEmpty core }
        ensures gone { result ≢ Err Full → ((result ≡ Err NoDev) ↔ LastFinds (is_gone_outside place) actor.new.pass.view.seen) }
    {
        drained_stays_empty::<Core>();
        known_drained_stays_empty::<Core>();
        match self.remove(rt, actor, RemovalOf::OfChip(place)) {
            Ok(reply) => results::done(reply),
            Err(errno) => Err(errno),
        }
    }

    /// Makes the chips of a device of the tree, where `up`; else removes them, and waits until nobody is inside any of them.
    /// From the answer Ok on nobody is inside, whatever happens: no driver call of these chips runs, and each later guarded call
    /// there is refused.
    ///
    /// `Inval` where the name isn't of a device's form; `NoEnt` where the device isn't there; `Busy` where it is leaving; `Perm`
    /// where it is live and is to be made, or isn't and is to be removed. Making its chips also `Inval` where it has no bank, and
    /// `NoSpc` where fewer places are left than it has banks. `Full` where the history is full.
    pub fn live<R: Wait>(
        &self,
        rt: &R,
        actor: &mut Actor<D>,
        device: &Name,
        up: bool,
    ) -> Result<(), Errno>
        requires actor { IsActorOf self.now actor.old }
        ensures actor { IsActorOf self.now actor.new }
        ensures same { IsSameActor actor.old.pass.view actor.new.pass.view }
        ensures port { actor.new.port ≡ actor.old.port }
        ensures places { up ≡ true → KnowsTheSame actor.old.pass.view actor.new.pass.view }
        ensures made { up ≡ true → ComesOut done_of result actor.old.pass.view (Once (LiveCall device.now)) [] actor.new.pass.view }
        ensures removed { up ≡ false → RemovesOut result actor.old.pass.view (Removing (OfDevice device.now)) actor.new.pass.view }
        ensures ended { up ≡ false → result ≢ Err Full → EndsAsBegun (OfDevice device.now) result actor.old.pass.view actor.new.pass.view }
        ensures stays_empty { DrainedStaysEmpty core }
        ensures nobody_inside { KnownDrainedStaysEmpty core }
    {
        drained_stays_empty::<Core>();
        known_drained_stays_empty::<Core>();
        if up {
            return self.done_alone(rt, actor, &Call::Live { device: *device });
        }
        match self.remove(rt, actor, RemovalOf::OfDevice(*device)) {
            Ok(reply) => results::done(reply),
            Err(errno) => Err(errno),
        }
    }
}
