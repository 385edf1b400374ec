//! Chips made by a driver, the clock, and lines found by their names.

ghost use Rattle.gl_asking.specs.Results.{done_of, found_of, number_of};
ghost use Rattle.gl_base.specs.declared.limits.TheConstants.{LINES_MAX};
ghost use Rattle.gl_chip.specs.Called.{ComesOut};
ghost use Rattle.gl_gate.specs.Calls.{KnowsTheSame};
ghost use Rattle.gl_model.specs.Fits.{IsSomePlace};
ghost use Rattle.gl_model.specs.declared.call.Call.TheVariants.{Find as FindCall, Probe as ProbeCall, Tick as TickCall};
ghost use Rattle.gl_model.specs.declared.device_call.DeviceCall.TheVariants.{Once};
ghost use Rattle.std.specs.Prelude.{◌≡◌, ◌<◌, ◌≤◌, []};

use crate::device::Device;
use gl_base::{Errno, Kind, Name};
use gl_core::Core;
use gl_driver::Driver;
use std::sync::Wait;

impl<D: Driver<Core>> Device<D> {
    /// Makes a chip of 1 to `LINES_MAX` lines outside the tree, and answers its place.
    pub fn probe<R: Wait>(
        &mut self,
        rt: &R,
        label: Name,
        lines: u32,
        kind: Kind,
    ) -> Result<u8, Errno>
        requires some_lines { 1 ≤ lines }
        requires few_lines { lines ≤ LINES_MAX }
        ensures port { self.new.port ≡ self.old.port }
        ensures places { KnowsTheSame self.old.pass.view self.new.pass.view }
        ensures called { ComesOut number_of result self.old.pass.view (Once (ProbeCall label lines kind)) [] self.new.pass.view }
    {
        self.gpio.probe(rt, &mut self.actor, label, lines, kind)
    }

    /// Sets the monotonic and the real clock, in nanoseconds, and fires the deadlines that have come.
    pub fn tick<R: Wait>(&mut self, rt: &R, mono: u64, real: u64) -> Result<(), Errno>
        ensures port { self.new.port ≡ self.old.port }
        ensures places { KnowsTheSame self.old.pass.view self.new.pass.view }
        ensures called { ComesOut done_of result self.old.pass.view (Once (TickCall mono real)) [] self.new.pass.view }
    {
        self.gpio.tick(rt, &mut self.actor, mono, real)
    }

    /// Looks for the lines of a name, on the chip of one place or on all chips: the first one's place and offset, and how many
    /// lines have the name.
    pub fn find<R: Wait>(
        &mut self,
        rt: &R,
        place: Option<u8>,
        name: &Name,
    ) -> Result<(u8, u32, u32), Errno>
        requires place { IsSomePlace place }
        ensures port { self.new.port ≡ self.old.port }
        ensures places { KnowsTheSame self.old.pass.view self.new.pass.view }
        ensures called { ComesOut found_of result self.old.pass.view (Once (FindCall place name.now)) [] self.new.pass.view }
    {
        self.gpio.find(rt, &mut self.actor, place, name)
    }
}
