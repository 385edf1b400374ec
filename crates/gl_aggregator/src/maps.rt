//! The maps that a port keeps.
ghost use Rattle.std.specs.Prelude.{◌≡◌, ◌+◌, ◌-◌, ◌<◌, ◌≤◌, [], ◌∷◌, ◌++◌, length};
ghost use Rattle.gl_base.specs.Rows.{Each};
ghost use Rattle.gl_driver.specs.Maps.{FitsMap, left_behind, map_at, with_map};

use gl_base::{LINES_PER_REQUEST, Lines};
use gl_driver::{Map, Target};
use std::marker::Model;

/// How many maps a port keeps at most.
pub(crate) const MAPS_MAX: u32 = 4;

/// What stands past the last map.
const NO_MAP: Map = Map {
    place: 0,
    count: 0,
    targets: [Target {
        place: 0,
        fd: 0,
        lines: Lines {
            count: 0,
            offsets: [0; LINES_PER_REQUEST as usize],
        },
    }; 4],
};

/// Maps, in the order in which they were learnt. Contracts see the list of them.
#[derive(Drop)]
pub(crate) struct Maps {
    count: u32,
    rows: [Map; MAPS_MAX as usize],
}

impl Model for Maps {
    ghost use Rattle.std.specs.Prelude.{◌≤◌, List, take};
    ghost use Rattle.gl_driver.specs.declared.map.Map.{Map};
    ghost use Rattle.gl_aggregator.specs.declared.maps.TheConstants.{MAPS_MAX};

    ghost Value = { List Map };

    ghost view = { λ m. take m.count m.rows };

    ghost invariant = { λ m. m.count ≤ MAPS_MAX };
}

impl Maps {
    /// No map.
    pub(crate) fn new() -> Maps
        ensures { result ≡ [] }
    {
        Maps {
            count: 0,
            rows: no_maps(),
        }
    }

    /// How many maps there is room for.
    pub(crate) fn left(&self) -> u32
        ensures { result + length self.now ≡ MAPS_MAX }
    {
        MAPS_MAX - self.rows().len() as u32
    }

    /// Keeps one map more, where there is room for it.
    #[tactic(auto, using(crate::proofs::Keeping::each_more, crate::proofs::Keeping::kept, crate::proofs::Keeping::none_kept, crate::proofs::Keeping::none_less, crate::proofs::Keeping::one_less))]
    pub(crate) fn keep(&mut self, map: &Map)
        ensures maps { self.new ≡ with_map (MAPS_MAX - length self.old) map.now self.old }
        ensures left { MAPS_MAX - length self.new ≡ left_behind (MAPS_MAX - length self.old) }
        ensures fit { Each FitsMap self.old → FitsMap map.now → Each FitsMap self.new }
    {
        if self.left() > 0 {
            self.put(map);
        }
    }

    /// Keeps one map more.
    fn put(&mut self, map: &Map)
        requires { length self.old < MAPS_MAX }
        ensures { self.new ≡ self.old ++ map.now ∷ [] }
    {
        self.rows[self.count as usize] = *map;
        self.count += 1;
    }

    /// The map of a place, if there is one.
    pub(crate) fn map(&self, place: u8) -> Option<Map>
        ensures { result ≡ map_at place self.now }
    {
        map_among(self.rows(), place)
    }

    /// The maps.
    fn rows(&self) -> &[Map]
        ensures rows { result.now ≡ self.now }
        ensures few { length self.now ≤ MAPS_MAX }
    {
        &self.rows[..self.count as usize]
    }
}

/// Rows without a map.
fn no_maps() -> [Map; MAPS_MAX as usize] {
    [NO_MAP; MAPS_MAX as usize]
}

/// The first of these maps that is of the place.
fn map_among(maps: &[Map], place: u8) -> Option<Map>
    ensures { result ≡ map_at place maps.now }
{
    for map in maps {
        if map.place == place {
            return Some(*map);
        }
    }
    None
}
