//! The trait of ports.
ghost use Rattle.std.specs.Prelude.{◌≡◌, ℕ, List, Option, None};
ghost use Rattle.gl_driver.specs.declared.map.Map.{Map};
ghost use Rattle.gl_driver.specs.Maps.{FitsMap, left_behind, map_at, with_map};
ghost use Rattle.gl_driver.specs.Told.{Told, with_bits, with_plan};

use crate::map::Map;

/// What one actor asks a driver through.
///
/// A port tells, where it can, how many driver calls went through it, how many calls its plan counts, the call that the
/// plan names by its number among these, its accepted bits, and the operation and answer of the last call. It counts the
/// driver's failures in a `u64`, which rises at each of them and stands still at its end. It may keep maps of places. The design of
/// ports is this project's choice.
pub trait Port: Send + Drop {
    /// What the port tells, where it can.
    ghost told: { Self → Option Told };

    /// How many failures it has counted.
    ghost faults: { Self → ℕ };

    /// The maps that it keeps.
    ghost maps: { Self → List Map };

    /// How many maps more it takes.
    ghost maps_left: { Self → ℕ };

    /// How many failures it has counted.
    fn faults(&self) -> u64
        ensures { result ≡ faults self.now };

    /// Plans that the `nth` driver call from now on fails, counted from 1, in place of an earlier plan. 0
    /// takes the plan away.
    fn plan(&mut self, nth: u32)
        ensures told { told self.new ≡ with_plan nth (told self.old) }
        ensures faults { faults self.new ≡ faults self.old }
        ensures maps { maps self.new ≡ maps self.old }
        ensures maps_left { maps_left self.new ≡ maps_left self.old };

    /// Makes these the accepted bits: from now on a planned driver answers an `Apply` that doesn't fail with them.
    fn accept(&mut self, bits: u64)
        ensures told { told self.new ≡ with_bits bits (told self.old) }
        ensures faults { faults self.new ≡ faults self.old }
        ensures maps { maps self.new ≡ maps self.old }
        ensures maps_left { maps_left self.new ≡ maps_left self.old };

    /// How many maps more it takes.
    fn maps_left(&self) -> u32
        ensures { result ≡ maps_left self.now };

    /// Keeps a map, for a place that has none. A port that takes none more stays as it was.
    fn learn(&mut self, map: &Map)
        requires new { map_at map.now.place (maps self.old) ≡ None }
        requires fits { FitsMap map.now }
        ensures maps { maps self.new ≡ with_map (maps_left self.old) map.now (maps self.old) }
        ensures maps_left { maps_left self.new ≡ left_behind (maps_left self.old) }
        ensures told { told self.new ≡ told self.old }
        ensures faults { faults self.new ≡ faults self.old };

    /// The map of a place, if it has one.
    fn map(&self, place: u8) -> Option<Map>
        ensures { result ≡ map_at place (maps self.now) };
}
