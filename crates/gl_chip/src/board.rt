//! Chips made by a driver, the clock, and lines found by their names. These calls take no guard.

ghost use Rattle.std.specs.Prelude.{◌≡◌, ◌≤◌, []};
ghost use Rattle.gl_base.specs.declared.limits.TheConstants.{LINES_MAX};
ghost use Rattle.gl_gate.specs.Calls.{KnowsTheSame};
ghost use Rattle.gl_model.specs.declared.call.Call.TheVariants.{Find as FindCall, Probe as ProbeCall, Tick as TickCall};
ghost use Rattle.gl_model.specs.Fits.{IsSomePlace};
ghost use Rattle.gl_model.specs.declared.device_call.DeviceCall.TheVariants.{Once};
ghost use Rattle.gl_chip.specs.Called.{ComesOut};
ghost use Rattle.gl_asking.specs.Results.{done_of, found_of, number_of};
ghost use Rattle.gl_chip.specs.Values.{IsActorOf, IsSameActor};

use crate::actor::Actor;
use crate::gpio::Gpio;
use crate::numbers;
use gl_asking::results;
use gl_base::{Errno, Kind, Name};
use gl_core::{Call, Core};
use gl_driver::Driver;
use std::sync::Wait;

impl<D: Driver<Core>> Gpio<D> {
    /// Makes a chip of 1 to `LINES_MAX` lines outside the tree, and tells its place.
    ///
    /// `NoSpc` where all places were used. `Full` where the history is full.
    pub fn probe<R: Wait>(
        &self,
        rt: &R,
        actor: &mut Actor<D>,
        label: Name,
        lines: u32,
        kind: Kind,
    ) -> Result<u8, Errno>
        requires actor { IsActorOf self.now actor.old }
        requires some_lines { 1 ≤ lines }
        requires few_lines { lines ≤ LINES_MAX }
        ensures actor { IsActorOf self.now actor.new }
        ensures same { IsSameActor actor.old.pass.view actor.new.pass.view }
        ensures port { actor.new.port ≡ actor.old.port }
        ensures places { KnowsTheSame actor.old.pass.view actor.new.pass.view }
        ensures called { ComesOut number_of result actor.old.pass.view (Once (ProbeCall label lines kind)) [] actor.new.pass.view }
    {
        match self.bare(rt, actor, &Call::Probe { label, lines, kind }) {
            Ok(reply) => numbers::place(reply),
            Err(errno) => Err(errno),
        }
    }

    /// Sets the monotonic and the real clock, in nanoseconds, and fires the deadlines that have come.
    ///
    /// `Inval` where the monotonic clock is below the present one, or one of them is 2^63 or more. `Full` where the history is full.
    pub fn tick<R: Wait>(
        &self,
        rt: &R,
        actor: &mut Actor<D>,
        mono: u64,
        real: u64,
    ) -> Result<(), Errno>
        requires actor { IsActorOf self.now actor.old }
        ensures actor { IsActorOf self.now actor.new }
        ensures same { IsSameActor actor.old.pass.view actor.new.pass.view }
        ensures port { actor.new.port ≡ actor.old.port }
        ensures places { KnowsTheSame actor.old.pass.view actor.new.pass.view }
        ensures called { ComesOut done_of result actor.old.pass.view (Once (TickCall mono real)) [] actor.new.pass.view }
    {
        self.done_alone(rt, actor, &Call::Tick { mono, real })
    }

    /// Looks for the lines of a name, on the chip of one place or on all chips: the first one's place and offset, and how many
    /// lines have the name.
    ///
    /// `NoEnt` where no line has it. `Full` where the history is full.
    pub fn find<R: Wait>(
        &self,
        rt: &R,
        actor: &mut Actor<D>,
        place: Option<u8>,
        name: &Name,
    ) -> Result<(u8, u32, u32), Errno>
        requires actor { IsActorOf self.now actor.old }
        requires place { IsSomePlace place }
        ensures actor { IsActorOf self.now actor.new }
        ensures same { IsSameActor actor.old.pass.view actor.new.pass.view }
        ensures port { actor.new.port ≡ actor.old.port }
        ensures places { KnowsTheSame actor.old.pass.view actor.new.pass.view }
        ensures called { ComesOut found_of result actor.old.pass.view (Once (FindCall place name.now)) [] actor.new.pass.view }
    {
        match self.bare(rt, actor, &Call::Find { place, name: *name }) {
            Ok(reply) => results::found(reply),
            Err(errno) => Err(errno),
        }
    }
}
