//! The aggregator: a driver over a driver.
ghost use Rattle.std.specs.Prelude.{◌≡◌, ◌≢◌, ◌≤◌, ◌-◌, length, ℕ, Option, Some, None, IfErr, IfSome};
ghost use Rattle.gl_base.specs.Count.{Rises};
ghost use Rattle.gl_base.specs.declared.limits.TheConstants.{PLACES};
ghost use Rattle.gl_core.specs.Device.{core};
ghost use Rattle.gl_driver.specs.Calls.{Drives, FitsOp, MayMakeEntries, OwesAt};
ghost use Rattle.gl_driver.specs.Maps.{map_at};
ghost use Rattle.gl_driver.specs.Told.{answer_of, faults_after};
ghost use Rattle.gl_gate.specs.Calls.{HoldsNoTurn, IsInside};
ghost use Rattle.gl_gate.specs.Values.{IsPassOf};
ghost use Rattle.gl_aggregator.specs.Aggregating.{Aggregates, FollowsAt, FollowsBehind, OwnAt, PassesOn};
ghost use Rattle.gl_aggregator.specs.Ports.{told_over};
ghost use Rattle.gl_aggregator.specs.declared.maps.TheConstants.{MAPS_MAX};
ghost use Rattle.gl_aggregator.specs.Plans.{follows_plan, owns_none};

use crate::commands::asking_on;
use crate::port::AggPort;
use crate::routes::routes_of;
use crate::visiting::{begin_visit, end_visit};
use crate::words::gathered_behind;
use gl_core::Core;
use gl_driver::{Driver, DriverFault, Op};
use gl_gate::{Gate, Pass};
use std::marker::Model;
use std::sync::Wait;

/// A driver over a driver: what it is asked at a place with a map, it asks the map's targets, by calls of its own; all else goes to the driver
/// behind it, which makes none.
#[derive(Drop)]
pub struct AggDriver<D: Driver<Core>> {
    inner: D,
}

impl<D: Driver<Core>> Model for AggDriver<D> {
    ghost use Rattle.std.specs.Prelude.{◌≡◌};

    ghost Value = { D };

    ghost view = { λ d. d.inner };

    ghost invariant = { λ _. D.ENTRIES ≡ 0 };
}

impl<D: Driver<Core>> AggDriver<D> {
    /// An aggregator over a driver that makes no entries of its own.
    pub fn new(inner: D) -> AggDriver<D>
        requires { D.ENTRIES ≡ 0 }
        ensures { result ≡ inner }
    {
        AggDriver { inner }
    }
}

/// What a driver answered, or nothing where it failed.
fn answer_in(came: &Result<u64, DriverFault>) -> Option<u64>
    ensures { result ≡ answer_of came.now }
{
    match came {
        Ok(bits) => Some(*bits),
        Err(_) => None,
    }
}

/// At a place with a map its own entries are those of Own: for each target that has a line of the operation the ask, and after Go the tell, which holds
/// what the driver behind answered. It answers what is gathered of what was written at the tells; where one of these entries was refused, where a target
/// would need more attributes than there is room for, or where the history was full, it fails.
impl<D: Driver<Core>> Driver<Core> for AggDriver<D> {
    type Port = AggPort<D::Port>;

    const ENTRIES: u32 = 8;

    ghost ENTRIES = { 8 };

    ghost is_planned = { D.is_planned };

    ghost OwnEntries = { λ map op own. OwnAt map op own };

    ghost Follows = { λ map told op did room seen answer. FollowsAt (D.Follows None) map told op did room seen answer };

    fn call<R: Wait>(
        &self,
        rt: &R,
        gate: &Gate<Core>,
        port: &mut AggPort<D::Port>,
        pass: &mut Pass<Core>,
        place: u8,
        op: &Op,
    ) -> Result<u64, DriverFault>
        requires gate { IsPassOf gate.now pass.old }
        requires inside { IsInside pass.old.view place }
        requires asked_here { OwesAt core pass.old.view place }
        requires no_turn { HoldsNoTurn pass.old.view }
        requires op { FitsOp op.now }
        requires entries { ◌≢◌ {A = ℕ} 8 0 → MayMakeEntries core PLACES gate.now pass.old.view place }
        ensures aggregates { IfSome (map_at place port.old.maps) (λ map. Aggregates core (FollowsBehind (D.Follows None) pass.old.view.room (length pass.new.view.seen)) map op.now
            (D.Port.told port.old.inner) (D.Port.told port.new.inner) pass.old.view pass.new.view (answer_of result)) }
        ensures passes_on { map_at place port.old.maps ≡ None → PassesOn core (D.Follows None) op.now
            (D.Port.told port.old.inner) (D.Port.told port.new.inner) pass.old.view pass.new.view (answer_of result) }
        ensures gate { IsPassOf gate.now pass.new }
        ensures drives { Drives core 8 (λ map op own. OwnAt map op own) (λ map told op did room seen answer. FollowsAt (D.Follows None) map told op did room seen answer)
            (map_at place port.old.maps) op.now (told_over port.old.tally.calls port.old.tally.last (D.Port.told port.old.inner))
            (told_over port.new.tally.calls port.new.tally.last (D.Port.told port.new.inner)) (answer_of result) pass.old.view pass.new.view }
        ensures maps { port.new.maps ≡ port.old.maps }
        ensures maps_left { MAPS_MAX - length port.new.maps ≡ MAPS_MAX - length port.old.maps }
        ensures counted { port.new.tally.faults ≡ faults_after (answer_of result) port.old.tally.faults }
        ensures never_falls { port.old.tally.faults ≤ port.new.tally.faults }
        ensures fault { IfErr result (λ _. Rises port.old.tally.faults port.new.tally.faults) }
    {
        match port.maps.map(place) {
            Some(map) => {
                let routes = routes_of(&map, op);
                let rows = routes.rows();
                let mut bits = 0;
                for route in rows {
                    let asking = match asking_on(op, route) {
                        Some(asking) => asking,
                        None => return port.tally.take_down(op, None),
                    };
                    let word = if begin_visit(rt, gate, pass, &asking) {
                        let place = asking.command.place;
                        let answer = answer_in(
                            &self
                                .inner
                                .call(rt, gate, &mut port.inner, pass, place, &asking.op),
                        );
                        end_visit(rt, gate, pass, &asking, answer)
                    } else {
                        None
                    };
                    match gathered_behind(op, route, bits, word) {
                        Some(more) => bits = more,
                        None => return port.tally.take_down(op, None),
                    }
                }
                port.tally.take_down(op, Some(bits))
            }
            None => {
                let answer = answer_in(
                    &self.inner.call(rt, gate, &mut port.inner, pass, place, op),
                );
                port.tally.take_down(op, answer)
            }
        }
    }

    ghost owns_none = { λ none map op own is. owns_none map op own none is };

    ghost follows_plan = { λ planned t op did room seen answer is. follows_plan (D.Follows None) (D.follows_plan planned) t op did room seen answer is };
}
