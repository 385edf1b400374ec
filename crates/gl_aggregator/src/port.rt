//! The port of an aggregator: a port, and maps beside it.
ghost use Rattle.std.specs.Prelude.{◌≡◌, [], None};
ghost use Rattle.gl_aggregator.specs.Ports.{told_over};

use crate::maps::Maps;
use crate::tally::Tally;
use gl_driver::{Map, Port};
use std::marker::Model;

/// A port over a port, which keeps up to four maps. It counts the calls that go through it itself; its plan, what that counts, and the accepted
/// bits are those of the port behind it.
#[derive(Drop)]
pub struct AggPort<P: Port> {
    pub(crate) inner: P,
    pub(crate) tally: Tally,
    pub(crate) maps: Maps,
}

impl<P: Port> Model for AggPort<P> {
    ghost use Rattle.gl_base.specs.Rows.{Each};
    ghost use Rattle.gl_driver.specs.Maps.{FitsMap};
    ghost use Rattle.gl_aggregator.specs.Ports.{AggPortValue};

    ghost Value = { AggPortValue P };

    ghost view = { λ p. record { inner = p.inner; tally = p.tally; maps = p.maps } };

    ghost invariant = { λ p. Each FitsMap p.maps };
}

impl<P: Port> Port for AggPort<P> {
    ghost use Rattle.std.specs.Prelude.{◌-◌, length};
    ghost use Rattle.gl_aggregator.specs.Ports.{told_over};
    ghost use Rattle.gl_aggregator.specs.declared.maps.TheConstants.{MAPS_MAX};

    ghost told = { λ p. told_over p.tally.calls p.tally.last (P.told p.inner) };

    ghost faults = { λ p. p.tally.faults };

    ghost maps = { λ p. p.maps };

    ghost maps_left = { λ p. MAPS_MAX - length p.maps };

    fn faults(&self) -> u64 {
        self.tally.faults
    }

    fn plan(&mut self, nth: u32) {
        self.inner.plan(nth);
    }

    fn accept(&mut self, bits: u64) {
        self.inner.accept(bits);
    }

    fn maps_left(&self) -> u32 {
        self.maps.left()
    }

    fn learn(&mut self, map: &Map) {
        self.maps.keep(map);
    }

    fn map(&self, place: u8) -> Option<Map> {
        self.maps.map(place)
    }
}

impl<P: Port> AggPort<P> {
    /// A port over this one through which no call went, without a map.
    pub fn new(inner: P) -> AggPort<P>
        ensures inner { result.inner ≡ inner }
        ensures tally { result.tally ≡ record { calls = 0; last = None; faults = 0 } }
        ensures told { ⟦<AggPort<P> as Port>⟧.told result ≡ told_over 0 None (P.told inner) }
        ensures faults { ⟦<AggPort<P> as Port>⟧.faults result ≡ 0 }
        ensures maps { ⟦<AggPort<P> as Port>⟧.maps result ≡ [] }
        ensures maps_left { ⟦<AggPort<P> as Port>⟧.maps_left result ≡ 4 }
    {
        AggPort {
            inner,
            tally: Tally::new(),
            maps: Maps::new(),
        }
    }
}
