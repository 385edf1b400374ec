//! Calls that name a line or the pins of a place. They go behind the guard of the place: where that is closed, each is `NoDev`.

ghost use Rattle.std.specs.Prelude.{◌≡◌, ◌<◌, [], true, false};
ghost use Rattle.gl_base.specs.declared.limits.TheConstants.{PLACES};
ghost use Rattle.gl_model.specs.declared.call.Call.TheVariants.{Interrupt, Irq as IrqCall, Level as LevelCall, Pin as PinCall, Pull as PullCall};
ghost use Rattle.gl_model.specs.declared.device_call.DeviceCall.TheVariants.{Once};
ghost use Rattle.gl_chip.specs.Called.{ComesOut};
ghost use Rattle.gl_asking.specs.Results.{done_of, level_of};
ghost use Rattle.gl_chip.specs.Values.{IsActorOf, IsSameActor};

use crate::actor::Actor;
use crate::gpio::Gpio;
use gl_asking::results;
use gl_base::{Errno, IrqDo, PinDo};
use gl_core::{Call, Core};
use gl_driver::Driver;
use std::sync::Wait;

impl<D: Driver<Core>> Gpio<D> {
    /// Pulls a line of a simulated chip up or down.
    ///
    /// `NoDev` where the removal of its chip had closed the place; `NoEnt` where the place has no chip; `Inval` where the offset is
    /// at or past the number of its lines, or the chip is remote; `Full` where the history is full.
    pub fn set_pull<R: Wait>(
        &self,
        rt: &R,
        actor: &mut Actor<D>,
        place: u8,
        offset: u32,
        up: bool,
    ) -> Result<(), Errno>
        requires actor { IsActorOf self.now actor.old }
        requires place { place < PLACES }
        ensures actor { IsActorOf self.now actor.new }
        ensures same { IsSameActor actor.old.pass.view actor.new.pass.view }
        ensures port { actor.new.port ≡ actor.old.port }
        ensures called { ComesOut done_of result actor.old.pass.view (Once (PullCall place offset up)) [] actor.new.pass.view }
    {
        self.done_alone(rt, actor, &Call::Pull { place, offset, up })
    }

    /// The physical level of a line of a simulated chip: true for high.
    ///
    /// `NoDev` where the removal of its chip had closed the place; `NoEnt` where the place has no chip; `Inval` where the offset is
    /// at or past the number of its lines, or the chip is remote; `Full` where the history is full.
    pub fn level<R: Wait>(
        &self,
        rt: &R,
        actor: &mut Actor<D>,
        place: u8,
        offset: u32,
    ) -> Result<bool, Errno>
        requires actor { IsActorOf self.now actor.old }
        requires place { place < PLACES }
        ensures actor { IsActorOf self.now actor.new }
        ensures same { IsSameActor actor.old.pass.view actor.new.pass.view }
        ensures port { actor.new.port ≡ actor.old.port }
        ensures called { ComesOut level_of result actor.old.pass.view (Once (LevelCall place offset false)) [] actor.new.pass.view }
    {
        self.read_level(rt, actor, place, offset, false)
    }

    /// The pull of a line of a simulated chip: true for up.
    ///
    /// `NoDev` where the removal of its chip had closed the place; `NoEnt` where the place has no chip; `Inval` where the offset is
    /// at or past the number of its lines, or the chip is remote; `Full` where the history is full.
    pub fn pull<R: Wait>(
        &self,
        rt: &R,
        actor: &mut Actor<D>,
        place: u8,
        offset: u32,
    ) -> Result<bool, Errno>
        requires actor { IsActorOf self.now actor.old }
        requires place { place < PLACES }
        ensures actor { IsActorOf self.now actor.new }
        ensures same { IsSameActor actor.old.pass.view actor.new.pass.view }
        ensures port { actor.new.port ≡ actor.old.port }
        ensures called { ComesOut level_of result actor.old.pass.view (Once (LevelCall place offset true)) [] actor.new.pass.view }
    {
        self.read_level(rt, actor, place, offset, true)
    }

    /// The level of a line, or its pull.
    fn read_level<R: Wait>(
        &self,
        rt: &R,
        actor: &mut Actor<D>,
        place: u8,
        offset: u32,
        pull: bool,
    ) -> Result<bool, Errno>
        requires actor { IsActorOf self.now actor.old }
        requires place { place < PLACES }
        ensures actor { IsActorOf self.now actor.new }
        ensures same { IsSameActor actor.old.pass.view actor.new.pass.view }
        ensures port { actor.new.port ≡ actor.old.port }
        ensures called { ComesOut level_of result actor.old.pass.view (Once (LevelCall place offset pull)) [] actor.new.pass.view }
    {
        let call = Call::Level {
            place,
            offset,
            pull,
        };
        match self.bare(rt, actor, &call) {
            Ok(reply) => results::level(reply),
            Err(errno) => Err(errno),
        }
    }

    /// An interrupt of a remote chip tells the level of a line.
    ///
    /// `NoDev` where the removal of its chip had closed the place; `NoEnt` where the place has no chip; `Inval` where the offset is
    /// at or past the number of its lines, or the chip is simulated; `Full` where the history is full.
    pub fn interrupt<R: Wait>(
        &self,
        rt: &R,
        actor: &mut Actor<D>,
        place: u8,
        offset: u32,
        up: bool,
    ) -> Result<(), Errno>
        requires actor { IsActorOf self.now actor.old }
        requires place { place < PLACES }
        ensures actor { IsActorOf self.now actor.new }
        ensures same { IsSameActor actor.old.pass.view actor.new.pass.view }
        ensures port { actor.new.port ≡ actor.old.port }
        ensures called { ComesOut done_of result actor.old.pass.view (Once (Interrupt place offset up)) [] actor.new.pass.view }
    {
        self.done_alone(rt, actor, &Call::Interrupt { place, offset, up })
    }

    /// Maps lines of a chip to pins, or holds or drops a pin for another function.
    ///
    /// `NoDev` where the removal of its chip had closed the place; `NoEnt` where the place has no chip. A range: `Inval` where it is
    /// empty, passes the chip's lines or pin 4095, or overlaps another of the chip; `NoSpc` where the chip has 16. Holding: `Inval`
    /// where no range has the pin; `Busy` where it is held, or its line isn't free. Dropping: `Inval` where it isn't held. `Full`
    /// where the history is full.
    pub fn pin<R: Wait>(
        &self,
        rt: &R,
        actor: &mut Actor<D>,
        place: u8,
        what: PinDo,
    ) -> Result<(), Errno>
        requires actor { IsActorOf self.now actor.old }
        requires place { place < PLACES }
        ensures actor { IsActorOf self.now actor.new }
        ensures same { IsSameActor actor.old.pass.view actor.new.pass.view }
        ensures port { actor.new.port ≡ actor.old.port }
        ensures called { ComesOut done_of result actor.old.pass.view (Once (PinCall place what)) [] actor.new.pass.view }
    {
        self.done_alone(rt, actor, &Call::Pin { place, what })
    }

    /// Locks the interrupt of a line, unlocks, enables or disables it, or takes it away.
    ///
    /// `NoDev` where the removal of its chip had closed the place; `NoEnt` where the place has no chip; `Inval` where the offset is
    /// at or past the number of its lines. Locking: `Busy` where the line is claimed; `NxIo` where it has no interrupt; `Io` where it
    /// is an output that isn't open-drain. Unlocking, enabling and disabling: `Inval` where it isn't locked; enabling also `Busy`
    /// and `Io` as locking. Taking it away: `Busy` where it is locked, claimed, or held with an edge or a debounce period. `Full`
    /// where the history is full.
    pub fn irq<R: Wait>(
        &self,
        rt: &R,
        actor: &mut Actor<D>,
        place: u8,
        offset: u32,
        what: IrqDo,
    ) -> Result<(), Errno>
        requires actor { IsActorOf self.now actor.old }
        requires place { place < PLACES }
        ensures actor { IsActorOf self.now actor.new }
        ensures same { IsSameActor actor.old.pass.view actor.new.pass.view }
        ensures port { actor.new.port ≡ actor.old.port }
        ensures called { ComesOut done_of result actor.old.pass.view (Once (IrqCall place offset what)) [] actor.new.pass.view }
    {
        self.done_alone(
            rt,
            actor,
            &Call::Irq {
                place,
                offset,
                what,
            },
        )
    }
}
