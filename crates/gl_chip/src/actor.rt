//! Actors.

use gl_core::Core;
use gl_driver::{Driver, Map, Port};
use gl_gate::Pass;
use std::marker::Model;

/// Who calls the device: a pass of its gate, and a port of its driver.
///
/// Between calls an actor is inside no place, owes no entry and removes nothing.
#[derive(Drop)]
pub struct Actor<D: Driver<Core>> {
    pub(crate) pass: Pass<Core>,
    pub(crate) port: D::Port,
}

impl<D: Driver<Core>> Model for Actor<D> {
    ghost use Rattle.gl_chip.specs.Values.{ActorValue, IsIdle};

    ghost Value = { ActorValue D.Port };

    ghost view = { λ a. record { pass = a.pass; port = a.port } };

    ghost invariant = { λ a. IsIdle a.pass.view };
}

impl<D: Driver<Core>> Actor<D> {
    ghost use Rattle.std.specs.Prelude.{◌≡◌, None};
    ghost use Rattle.gl_world.specs.History.{Legal};
    ghost use Rattle.gl_rule.specs.Turn.{NoStrangers};
    ghost use Rattle.gl_gate.specs.Calls.{HasItsOwn};
    ghost use Rattle.gl_driver.specs.Maps.{FitsMap, left_behind, map_at, with_map};
    ghost use Rattle.gl_driver.specs.Told.{with_bits, with_plan};
    ghost use Rattle.gl_core.specs.Device.{core};
    ghost use Rattle.gl_chip.specs.Values.{IsIdle};

    /// The number of the actor: that of its entries. The first actor of a device has 0.
    ///
    /// What it has seen of the history is legal, and has just its own entries with its number. The first actor has seen no entry of
    /// a number that no actor was made with, so all that it has seen is its own where it is the only one.
    pub fn number(&self) -> u8
        ensures number { result ≡ self.now.pass.view.number }
        ensures own { HasItsOwn self.now.pass.view }
        ensures legal { Legal core self.now.pass.view.seen }
        ensures strangers { NoStrangers self.now.pass.view self.now.pass.view.seen }
        ensures idle { IsIdle self.now.pass.view }
    {
        self.pass.number()
    }

    /// Plans that the `nth` driver call of this actor from now on fails, counted from 1, in place of an earlier plan. 0
    /// takes the plan away.
    pub fn plan(&mut self, nth: u32)
        ensures pass { self.new.pass ≡ self.old.pass }
        ensures port { D.Port.told self.new.port ≡ with_plan nth (D.Port.told self.old.port) }
        ensures faults { D.Port.faults self.new.port ≡ D.Port.faults self.old.port }
        ensures maps { D.Port.maps self.new.port ≡ D.Port.maps self.old.port }
        ensures maps_left { D.Port.maps_left self.new.port ≡ D.Port.maps_left self.old.port }
    {
        self.port.plan(nth);
    }

    /// Makes these the accepted bits of this actor's port: from now on a planned driver answers with them where it configures
    /// lines and doesn't fail.
    pub fn accept(&mut self, bits: u64)
        ensures pass { self.new.pass ≡ self.old.pass }
        ensures port { D.Port.told self.new.port ≡ with_bits bits (D.Port.told self.old.port) }
        ensures faults { D.Port.faults self.new.port ≡ D.Port.faults self.old.port }
        ensures maps { D.Port.maps self.new.port ≡ D.Port.maps self.old.port }
        ensures maps_left { D.Port.maps_left self.new.port ≡ D.Port.maps_left self.old.port }
    {
        self.port.accept(bits);
    }

    /// How many maps more this actor's port takes.
    pub fn maps_left(&self) -> u32
        ensures { result ≡ D.Port.maps_left self.now.port }
    {
        self.port.maps_left()
    }

    /// The map of a place that this actor's port keeps, if it has one.
    pub fn map(&self, place: u8) -> Option<Map>
        ensures { result ≡ map_at place (D.Port.maps self.now.port) }
    {
        self.port.map(place)
    }

    /// Has this actor's port keep a map, for a place that has none. A port that takes none more stays as it was.
    pub fn learn(&mut self, map: &Map)
        requires new { map_at map.now.place (D.Port.maps self.old.port) ≡ None }
        requires fits { FitsMap map.now }
        ensures pass { self.new.pass ≡ self.old.pass }
        ensures maps { D.Port.maps self.new.port ≡ with_map (D.Port.maps_left self.old.port) map.now (D.Port.maps self.old.port) }
        ensures maps_left { D.Port.maps_left self.new.port ≡ left_behind (D.Port.maps_left self.old.port) }
        ensures port { D.Port.told self.new.port ≡ D.Port.told self.old.port }
        ensures faults { D.Port.faults self.new.port ≡ D.Port.faults self.old.port }
    {
        self.port.learn(map);
    }
}
