//! A driver that makes an entry of its own.
ghost use Rattle.std.specs.Prelude.{◌≡◌, ◌≢◌, ℕ, ◌≤◌, false, None, IfErr, []};
ghost use Rattle.std.proofs.Common.{arith, sym};
ghost use Rattle.std.proofs.lemmas.Bool.{true≢false};
ghost use Rattle.gl_gate.specs.Values.{IsPassOf};
ghost use Rattle.gl_gate.specs.Calls.{IsInside, HoldsNoTurn};
ghost use Rattle.gl_base.specs.Count.{counted_up, Rises};
ghost use Rattle.gl_driver.specs.Told.{answer_of, faults_after};
ghost use Rattle.gl_driver.specs.Calls.{FitsOp, MayMakeEntries, Drives};
ghost use Rattle.gl_gate_tests.specs.Noting.{AreNotes};

use crate::adder::Adder;
use crate::adder_call::AdderCall;
use gl_base::PLACES;
use gl_driver::laws::{call_is_own, refusal_is_none};
use gl_driver::{Driver, DriverFault, Map, Op, Port};
use gl_gate::{Gate, Pass};
use std::sync::Wait;

/// A port that tells nothing but how many failures it has counted, and keeps no maps.
#[derive(Drop)]
pub struct QuietPort {
    faults: u64,
}

impl QuietPort {
    /// A port that has counted no failure.
    pub fn new() -> QuietPort {
        QuietPort { faults: 0 }
    }
}

impl Port for QuietPort {
    ghost told = { λ _. None };

    ghost faults = { λ p. p.faults };

    ghost maps = { λ _. [] };

    ghost maps_left = { λ _. 0 };

    fn faults(&self) -> u64 {
        self.faults
    }

    fn plan(&mut self, _nth: u32) {}

    fn accept(&mut self, _bits: u64) {}

    fn maps_left(&self) -> u32 {
        0
    }

    fn learn(&mut self, _map: &Map) {}

    fn map(&self, _place: u8) -> Option<Map> {
        None
    }
}

/// A driver that notes each of its calls in the history, by an addition, and answers the number that stood there.
/// It fails where the history is full.
#[derive(Drop)]
pub struct NotingDriver;

impl Driver<Adder> for NotingDriver {
    type Port = QuietPort;

    const ENTRIES: u32 = 1;

    ghost ENTRIES = { 1 };

    ghost is_planned = { false };

    ghost OwnEntries = { λ _ _ own. AreNotes own };

    ghost Follows = { λ _ _ _ _ _ _ _. Unit {0} };

    fn call<R: Wait>(
        &self,
        rt: &R,
        gate: &Gate<Adder>,
        port: &mut QuietPort,
        pass: &mut Pass<Adder>,
        _place: u8,
        _op: &Op,
    ) -> Result<u64, DriverFault> {
        call_is_own::<Adder>();
        refusal_is_none::<Adder>();
        // What holds of every pass is known once it has told its number.
        let _number = pass.number();
        match gate.act(rt, pass, AdderCall::Alone, &mut (), &mut []) {
            Ok(number) => Ok(number),
            Err(_) => {
                port.faults = port.faults.saturating_add(1);
                Err(DriverFault)
            }
        }
    }

    ghost owns_none = { λ none. absurd (Prim.omega arith) };

    ghost follows_plan = { λ planned. absurd (true≢false (sym planned)) };
}
