//! The simulated driver and its port.
ghost use Rattle.std.specs.Prelude.{◌≡◌, ◌≢◌, ℕ, ◌≤◌, ◌^◌, true, false, [], Some, None, IsTrue, IfErr, IfSome};
ghost use Rattle.std.proofs.Common.{refl};
ghost use Rattle.gl_base.specs.Count.{counted_up, Rises};
ghost use Rattle.gl_base.specs.Planned.{bits_for, names_call};
ghost use Rattle.gl_driver.specs.Told.{new_port, with_call, answer_of, planned_for, unless_planned, faults_after};

use crate::driver::Driver;
use crate::map::Map;
use crate::op::{DriverCall, DriverFault};
use crate::port::Port;
use gl_base::{Op, count_up};
use gl_gate::{Gate, Pass};
use gl_world::Machine;
use std::sync::Wait;

/// A port that tells all that went through it, and keeps no maps.
#[derive(Drop)]
pub struct SimPort {
    calls: u64,
    /// The call that fails, by its number among all calls, counted from 1.
    plan: Option<u128>,
    /// The accepted bits.
    bits: u64,
    last: Option<DriverCall>,
    faults: u64,
}

impl Port for SimPort {
    ghost told = { λ p. Some record { calls = p.calls; counted = p.calls; plan = p.plan; bits = p.bits; last = p.last } };

    ghost faults = { λ p. p.faults };

    ghost maps = { λ _. [] };

    ghost maps_left = { λ _. 0 };

    fn faults(&self) -> u64 {
        self.faults
    }

    fn plan(&mut self, nth: u32) {
        self.plan = if nth == 0 {
            None
        } else {
            Some(u128::from(self.calls) + u128::from(nth))
        };
    }

    fn accept(&mut self, bits: u64) {
        self.bits = bits;
    }

    fn maps_left(&self) -> u32 {
        0
    }

    fn learn(&mut self, _map: &Map) {}

    fn map(&self, _place: u8) -> Option<Map> {
        None
    }
}

impl SimPort {
    /// A port through which no call went, with no plan and accepted bits 0.
    pub fn new() -> SimPort
        ensures told { ⟦<SimPort as Port>⟧.told result ≡ Some new_port }
        ensures faults { ⟦<SimPort as Port>⟧.faults result ≡ 0 }
        ensures maps { ⟦<SimPort as Port>⟧.maps result ≡ [] }
        ensures maps_left { ⟦<SimPort as Port>⟧.maps_left result ≡ 0 }
    {
        SimPort {
            calls: 0,
            plan: None,
            bits: 0,
            last: None,
            faults: 0,
        }
    }

    /// What a planned driver answers to this where it doesn't fail.
    fn bits_for(&self, op: &Op) -> u64
        ensures { result ≡ bits_for op.now self.now.bits }
    {
        match op {
            Op::Get { .. } => 0,
            Op::Set { .. } => 0,
            Op::Apply { .. } => self.bits,
        }
    }

    /// The plan names the next call.
    fn fails_next(&self) -> bool
        ensures { result ≡ names_call self.now.plan (counted_up self.now.calls) }
    {
        match self.plan {
            Some(call) => call == u128::from(count_up(self.calls)),
            None => false,
        }
    }

    /// Takes down a call that fails where the plan names it, and else has this answer.
    pub(crate) fn answer(&mut self, op: &Op, answer: Option<u64>) -> Result<u64, DriverFault>
        ensures answer { answer_of result ≡ unless_planned answer (⟦<SimPort as Port>⟧.told self.old) }
        ensures told { ⟦<SimPort as Port>⟧.told self.new
            ≡ with_call op.now (answer_of result) (⟦<SimPort as Port>⟧.told self.old) }
        ensures faults { self.new.faults ≡ faults_after (answer_of result) self.old.faults }
        ensures never_falls { self.old.faults ≤ self.new.faults }
        ensures fault { IfErr result (λ _. Rises self.old.faults self.new.faults) }
    {
        let answer = if self.fails_next() { None } else { answer };
        self.take_down(op, answer)
    }

    /// Takes down a call and its answer, and counts a failure.
    pub(crate) fn take_down(&mut self, op: &Op, answer: Option<u64>) -> Result<u64, DriverFault>
        ensures answer { answer_of result ≡ answer }
        ensures told { ⟦<SimPort as Port>⟧.told self.new ≡ with_call op.now answer (⟦<SimPort as Port>⟧.told self.old) }
        ensures faults { self.new.faults ≡ faults_after answer self.old.faults }
        ensures never_falls { self.old.faults ≤ self.new.faults }
        ensures fault { IfErr result (λ _. Rises self.old.faults self.new.faults) }
    {
        self.calls = count_up(self.calls);
        self.last = Some(DriverCall { op: *op, answer });
        match answer {
            Some(bits) => Ok(bits),
            None => {
                self.faults = count_up(self.faults);
                Err(DriverFault)
            }
        }
    }
}

/// A driver without hardware: it never waits, answers an `Apply` with its port's accepted bits and all else with 0, and
/// fails as its port plans.
#[derive(Clone, Copy)]
pub struct SimDriver;

impl SimDriver {
    /// The driver. There is nothing to it: all that it answers is in its ports.
    pub fn new() -> SimDriver {
        SimDriver
    }
}

impl<M: Machine> Driver<M> for SimDriver {
    type Port = SimPort;

    const ENTRIES: u32 = 0;

    ghost ENTRIES = { 0 };

    ghost is_planned = { true };

    ghost OwnEntries = { λ _ _ own. own ≡ [] };

    ghost Follows = { λ _ told op _ _ _ answer. IfSome told (λ t. answer ≡ planned_for op t) };

    fn call<R: Wait>(
        &self,
        _rt: &R,
        _gate: &Gate<M>,
        port: &mut SimPort,
        _pass: &mut Pass<M>,
        _place: u8,
        op: &Op,
    ) -> Result<u64, DriverFault> {
        let bits = port.bits_for(op);
        port.answer(op, Some(bits))
    }

    ghost owns_none = { λ _ _ _ _ is. is };

    ghost follows_plan = { λ _ _ _ _ _ _ _ is. is };
}
