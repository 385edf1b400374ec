//! Calls that name a line or the pins of a place. Where the removal of its chip had closed the place, each is `NoDev`.

ghost use Rattle.gl_asking.specs.Results.{done_of, level_of};
ghost use Rattle.gl_base.specs.declared.limits.TheConstants.{PLACES};
ghost use Rattle.gl_chip.specs.Called.{ComesOut};
ghost use Rattle.gl_model.specs.declared.call.Call.TheVariants.{Interrupt, Irq as IrqCall, Level as LevelCall, Pin as PinCall, Pull as PullCall};
ghost use Rattle.gl_model.specs.declared.device_call.DeviceCall.TheVariants.{Once};
ghost use Rattle.std.specs.Prelude.{◌≡◌, ◌<◌, [], true, false};

use crate::device::Device;
use gl_base::{Errno, IrqDo, PinDo};
use gl_core::Core;
use gl_driver::Driver;
use std::sync::Wait;

impl<D: Driver<Core>> Device<D> {
    /// Pulls a line of a simulated chip up or down.
    pub fn set_pull<R: Wait>(
        &mut self,
        rt: &R,
        place: u8,
        offset: u32,
        up: bool,
    ) -> Result<(), Errno>
        requires place { place < PLACES }
        ensures port { self.new.port ≡ self.old.port }
        ensures called { ComesOut done_of result self.old.pass.view (Once (PullCall place offset up)) [] self.new.pass.view }
    {
        self.gpio.set_pull(rt, &mut self.actor, place, offset, up)
    }

    /// The physical level of a line of a simulated chip: true for high.
    pub fn level<R: Wait>(&mut self, rt: &R, place: u8, offset: u32) -> Result<bool, Errno>
        requires place { place < PLACES }
        ensures port { self.new.port ≡ self.old.port }
        ensures called { ComesOut level_of result self.old.pass.view (Once (LevelCall place offset false)) [] self.new.pass.view }
    {
        self.gpio.level(rt, &mut self.actor, place, offset)
    }

    /// The pull of a line of a simulated chip: true for up.
    pub fn pull<R: Wait>(&mut self, rt: &R, place: u8, offset: u32) -> Result<bool, Errno>
        requires place { place < PLACES }
        ensures port { self.new.port ≡ self.old.port }
        ensures called { ComesOut level_of result self.old.pass.view (Once (LevelCall place offset true)) [] self.new.pass.view }
    {
        self.gpio.pull(rt, &mut self.actor, place, offset)
    }

    /// An interrupt of a remote chip reports the level of a line.
    pub fn interrupt<R: Wait>(
        &mut self,
        rt: &R,
        place: u8,
        offset: u32,
        up: bool,
    ) -> Result<(), Errno>
        requires place { place < PLACES }
        ensures port { self.new.port ≡ self.old.port }
        ensures called { ComesOut done_of result self.old.pass.view (Once (Interrupt place offset up)) [] self.new.pass.view }
    {
        self.gpio.interrupt(rt, &mut self.actor, place, offset, up)
    }

    /// Maps lines of a chip to pins, or holds or drops a pin for another function.
    pub fn pin<R: Wait>(&mut self, rt: &R, place: u8, what: PinDo) -> Result<(), Errno>
        requires place { place < PLACES }
        ensures port { self.new.port ≡ self.old.port }
        ensures called { ComesOut done_of result self.old.pass.view (Once (PinCall place what)) [] self.new.pass.view }
    {
        self.gpio.pin(rt, &mut self.actor, place, what)
    }

    /// Locks the interrupt of a line, unlocks, enables or disables it, or takes it away.
    pub fn irq<R: Wait>(&mut self, rt: &R, place: u8, offset: u32, what: IrqDo) -> Result<(), Errno>
        requires place { place < PLACES }
        ensures port { self.new.port ≡ self.old.port }
        ensures called { ComesOut done_of result self.old.pass.view (Once (IrqCall place offset what)) [] self.new.pass.view }
    {
        self.gpio.irq(rt, &mut self.actor, place, offset, what)
    }
}
