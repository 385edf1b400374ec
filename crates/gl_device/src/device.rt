//! The device and its only actor.

ghost use Rattle.std.specs.Prelude.{◌≡◌, ◌<◌, ℕ, [], IfErr, IfOk};
ghost use Rattle.gl_base.specs.declared.errno.Errno.TheVariants.{NoMemory};
ghost use Rattle.gl_world.specs.History.{StartsWith, Legal, entries_of, fold};
ghost use Rattle.gl_rule.specs.Views.{newcomer};
ghost use Rattle.gl_driver.specs.Told.{with_bits, with_plan};
ghost use Rattle.gl_core.specs.Device.{core};
ghost use Rattle.gl_core.specs.Kept.{StandsFor};
ghost use Rattle.gl_chip.specs.Values.{IsActorOf, IsQuietDriver};
ghost use Rattle.gl_device.specs.Alone.{IsAlone};

use gl_base::Errno;
use gl_chip::{Actor, Gpio};
use gl_core::Core;
use gl_driver::Driver;
use gl_world::Entry;
use std::alloc::Global;
use std::marker::Model;

/// A device with its only actor, which makes its calls one after the other.
///
/// Contracts see it as its actor. That the actor is one of the device, and that there is no other, is true of each value: so no call
/// asks for it or says it, and otherwise each says what `Gpio` says of the call of its name, whose comment has its errors.
#[derive(Drop)]
pub struct Device<D: Driver<Core>> {
    pub(crate) gpio: Gpio<D>,
    pub(crate) actor: Actor<D>,
}

impl<D: Driver<Core>> Model for Device<D> {
    ghost use Rattle.gl_chip.specs.Values.{ActorValue, IsActorOf};
    ghost use Rattle.gl_device.specs.Alone.{IsAlone};

    ghost Value = { ActorValue D.Port };

    ghost view = { λ d. d.actor };

    ghost invariant = { λ d. IsActorOf d.gpio d.actor × IsAlone d.actor.pass.view };
}

impl<D: Driver<Core>> Device<D> {
    /// A new machine behind this driver, which is asked through this port. The history takes `room` entries. The driver's own
    /// entries have nothing to do with removals and request no lines. `NoMemory` is its one refusal.
    pub fn new(alloc: Global, driver: D, port: D::Port, room: u32) -> Result<Device<D>, Errno>
        requires quiet { IsQuietDriver D.OwnEntries }
        ensures view { IfOk result (λ device. device.pass.view ≡ newcomer 0 room [] 1 [] []) }
        ensures port { IfOk result (λ device. device.port ≡ port) }
        ensures memory { IfErr result (λ errno. errno ≡ NoMemory) }
    {
        match Gpio::new(alloc, driver, port, room) {
            Ok((gpio, actor)) => Ok(Device { gpio, actor }),
            Err(errno) => Err(errno),
        }
    }

    /// The device and its actor by themselves, for more actors.
    pub fn into_parts(self) -> (Gpio<D>, Actor<D>)
        ensures actor { IsActorOf result.0 result.1 }
        ensures same { result.1 ≡ self }
        ensures alone { IsAlone self.pass.view }
    {
        let Device { gpio, actor } = self;
        (gpio, actor)
    }

    /// The machine, the history of all calls, and the port.
    pub fn finish(self) -> (Core, Vec<Entry<Core>>, D::Port)
        ensures machine { StandsFor result.0 (fold core result.1.items) }
        ensures legal { Legal core result.1.items }
        ensures seen { StartsWith result.1.items self.pass.view.seen }
        ensures mine { entries_of 0 result.1.items ≡ self.pass.view.mine }
        ensures others { (n : ℕ) → 0 < n → entries_of n result.1.items ≡ [] }
        ensures port { result.2 ≡ self.port }
    {
        let Device { gpio, actor } = self;
        gpio.finish(actor)
    }

    /// Plans that the `nth` driver call from now on fails, counted from 1, in place of an earlier plan. 0 takes the plan away.
    pub fn plan(&mut self, nth: u32)
        ensures pass { self.new.pass ≡ self.old.pass }
        ensures port { D.Port.told self.new.port ≡ with_plan nth (D.Port.told self.old.port) }
        ensures faults { D.Port.faults self.new.port ≡ D.Port.faults self.old.port }
    {
        self.actor.plan(nth);
    }

    /// Makes these the accepted bits: from now on a planned driver answers with them where it configures lines and doesn't fail.
    pub fn accept(&mut self, bits: u64)
        ensures pass { self.new.pass ≡ self.old.pass }
        ensures port { D.Port.told self.new.port ≡ with_bits bits (D.Port.told self.old.port) }
        ensures faults { D.Port.faults self.new.port ≡ D.Port.faults self.old.port }
    {
        self.actor.accept(bits);
    }
}
