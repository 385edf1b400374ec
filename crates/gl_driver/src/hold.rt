//! A driver that keeps calls until others are made.
ghost use Rattle.std.specs.Prelude.{◌≡◌, ℕ, ◌≤◌, false, IfOk, IfErr, [], None};
ghost use Rattle.std.proofs.Common.{sym};
ghost use Rattle.std.proofs.lemmas.Bool.{true≢false};
ghost use Rattle.gl_gate.specs.Values.{IsPassOf};
ghost use Rattle.gl_gate.specs.Calls.{IsInside, HoldsNoTurn};
ghost use Rattle.gl_base.specs.Count.{Rises};
ghost use Rattle.gl_driver.specs.Told.{answer_of, unless_planned, faults_after};
ghost use Rattle.gl_driver.specs.Calls.{FitsOp, Drives};

use crate::driver::Driver;
use crate::op::DriverFault;
use crate::port::Port;
use crate::sim::SimPort;
use crate::waiting::waits_for;
use gl_base::Op;
use gl_gate::{Gate, Pass};
use gl_world::Machine;
use std::marker::Model;
use std::sync::Wait;
use std::sync::atomic::{AtomicBool, AtomicU64, Ordering};

/// A driver that keeps each of its first calls until the one after them is answered, which shows that calls run side by
/// side. It answers 0 and fails as its port plans. A call that is kept for 100,000,000 turns fails too. Contracts
/// see the driver as the number of the call that lets the others go on.
#[derive(Drop)]
pub struct HoldDriver {
    /// How many calls it keeps.
    kept: u64,
    /// How many calls were made.
    made: AtomicU64,
    /// The call after the kept ones was answered.
    open: AtomicBool,
}

impl Model for HoldDriver {
    ghost use Rattle.std.specs.Prelude.{ℕ, ◌+◌};

    ghost Value = { ℕ };

    ghost view = { λ d. d.kept + 1 };
}

impl HoldDriver {
    /// A driver that keeps all calls before its `calls`-th one until that one is answered.
    pub fn new(calls: u32) -> HoldDriver
        requires { 1 ≤ calls }
        ensures { result ≡ calls }
    {
        HoldDriver {
            kept: u64::from(calls - 1),
            made: AtomicU64::new(0),
            open: AtomicBool::new(false),
        }
    }

    /// One call: true where it is answered.
    fn goes_on(&self) -> bool {
        if self.made.fetch_add(1, Ordering::SeqCst) < self.kept {
            return waits_for(&self.open);
        }
        self.open.store(true, Ordering::SeqCst);
        true
    }
}

impl<M: Machine> Driver<M> for HoldDriver {
    type Port = SimPort;

    const ENTRIES: u32 = 0;

    ghost ENTRIES = { 0 };

    ghost is_planned = { false };

    ghost OwnEntries = { λ _ _ own. own ≡ [] };

    ghost Follows = { λ _ _ _ _ _ _ _. Unit {0} };

    fn call<R: Wait>(
        &self,
        _rt: &R,
        gate: &Gate<M>,
        port: &mut SimPort,
        pass: &mut Pass<M>,
        place: u8,
        op: &Op,
    ) -> Result<u64, DriverFault>
        requires gate { IsPassOf gate.now pass.old }
        requires inside { IsInside pass.old.view place }
        requires no_turn { HoldsNoTurn pass.old.view }
        requires op { FitsOp op.now }
        ensures zero { IfOk result (λ bits. bits ≡ 0) }
        ensures planned_failure { answer_of result ≡ unless_planned (answer_of result) (⟦<SimPort as Port>⟧.told port.old) }
        ensures gate { IsPassOf gate.now pass.new }
        ensures drives { Drives M.Machine 0 (λ _ _ own. own ≡ []) (λ _ _ _ _ _ _ _. Unit {0}) None op.now
            (⟦<SimPort as Port>⟧.told port.old) (⟦<SimPort as Port>⟧.told port.new) (answer_of result) pass.old.view pass.new.view }
        ensures maps { ⟦<SimPort as Port>⟧.maps port.new ≡ ⟦<SimPort as Port>⟧.maps port.old }
        ensures maps_left { ⟦<SimPort as Port>⟧.maps_left port.new ≡ ⟦<SimPort as Port>⟧.maps_left port.old }
        ensures counted { ⟦<SimPort as Port>⟧.faults port.new
            ≡ faults_after (answer_of result) (⟦<SimPort as Port>⟧.faults port.old) }
        ensures never_falls { ⟦<SimPort as Port>⟧.faults port.old ≤ ⟦<SimPort as Port>⟧.faults port.new }
        ensures fault { IfErr result (λ _. Rises (⟦<SimPort as Port>⟧.faults port.old) (⟦<SimPort as Port>⟧.faults port.new)) }
    {
        let answer = if self.goes_on() { Some(0) } else { None };
        port.answer(op, answer)
    }

    ghost owns_none = { λ _ _ _ _ is. is };

    ghost follows_plan = { λ planned. absurd (true≢false (sym planned)) };
}
