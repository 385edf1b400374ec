//! Chips that go away: an unplugged chip, and all chips of a device of the tree.

ghost use Rattle.gl_asking.specs.Results.{done_of};
ghost use Rattle.gl_base.specs.declared.errno.Errno.TheVariants.{Full, NoDev};
ghost use Rattle.gl_base.specs.declared.limits.TheConstants.{PLACES};
ghost use Rattle.gl_chip.specs.Called.{ComesOut};
ghost use Rattle.gl_chip.specs.Opened.{LastFinds};
ghost use Rattle.gl_chip.specs.Removals.{EndsAsBegun, RemovesOut, is_gone_outside};
ghost use Rattle.gl_core.specs.Device.{core};
ghost use Rattle.gl_gate.specs.Calls.{KnowsClosed, KnowsDrained, KnowsTheSame};
ghost use Rattle.gl_model.specs.declared.call.Call.TheVariants.{Live as LiveCall};
ghost use Rattle.gl_model.specs.declared.device_call.DeviceCall.TheVariants.{Once, Removing};
ghost use Rattle.gl_model.specs.declared.device_call.RemovalOf.TheVariants.{OfChip, OfDevice};
ghost use Rattle.gl_rule.specs.Laws.{KnownDrainedStaysEmpty};
ghost use Rattle.gl_world.specs.Events.{DrainedStaysEmpty};
ghost use Rattle.std.specs.Prelude.{◌≡◌, ◌≢◌, ◌↔◌, ◌<◌, [], true, false, Err, IfOk};

use crate::device::Device;
use gl_base::{Errno, Name};
use gl_core::Core;
use gl_driver::Driver;
use std::sync::Wait;

impl<D: Driver<Core>> Device<D> {
    /// Removes the chip of a place that is of no device of the tree, and waits until nobody is inside. From the answer Ok on
    /// nobody is inside, whatever happens: no driver call of the chip runs, and each later guarded call there is refused.
    pub fn unplug<R: Wait>(&mut self, rt: &R, place: u8) -> Result<(), Errno>
        requires place { place < PLACES }
        ensures port { self.new.port ≡ self.old.port }
        ensures called { RemovesOut result self.old.pass.view (Removing (OfChip place)) self.new.pass.view }
        ensures ended { result ≢ Err Full → EndsAsBegun (OfChip place) result self.old.pass.view self.new.pass.view }
        ensures closed { IfOk result (λ _. KnowsClosed self.new.pass.view place) }
        ensures drained { IfOk result (λ _. KnowsDrained self.new.pass.view place) }
        ensures stays_empty { DrainedStaysEmpty core }
        ensures nobody_inside { KnownDrainedStaysEmpty core }
        ensures gone { result ≢ Err Full → ((result ≡ Err NoDev) ↔ LastFinds (is_gone_outside place) self.new.pass.view.seen) }
    {
        self.gpio.unplug(rt, &mut self.actor, place)
    }

    /// Makes the chips of a device of the tree, where `up`; else removes them, and waits until nobody is inside any of them.
    /// From the answer Ok on nobody is inside, whatever happens: no driver call of these chips runs, and each later guarded call
    /// there is refused.
    pub fn live<R: Wait>(&mut self, rt: &R, device: &Name, up: bool) -> Result<(), Errno>
        ensures port { self.new.port ≡ self.old.port }
        ensures places { up ≡ true → KnowsTheSame self.old.pass.view self.new.pass.view }
        ensures made { up ≡ true → ComesOut done_of result self.old.pass.view (Once (LiveCall device.now)) [] self.new.pass.view }
        ensures removed { up ≡ false → RemovesOut result self.old.pass.view (Removing (OfDevice device.now)) self.new.pass.view }
        ensures ended { up ≡ false → result ≢ Err Full → EndsAsBegun (OfDevice device.now) result self.old.pass.view self.new.pass.view }
        ensures stays_empty { DrainedStaysEmpty core }
        ensures nobody_inside { KnownDrainedStaysEmpty core }
    {
        self.gpio.live(rt, &mut self.actor, device, up)
    }
}
