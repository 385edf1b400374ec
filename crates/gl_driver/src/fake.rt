//! A driver that answers from a list of levels.
ghost use Rattle.std.specs.Prelude.{◌≡◌, ℕ, ◌≤◌, ◌<◌, ◌^◌, false, Some, None, IfErr, [], length};
ghost use Rattle.std.proofs.Common.{sym};
ghost use Rattle.std.proofs.lemmas.Bool.{true≢false};
ghost use Rattle.gl_gate.specs.Values.{IsPassOf};
ghost use Rattle.gl_gate.specs.Calls.{IsInside, HoldsNoTurn};
ghost use Rattle.gl_base.specs.Count.{Rises};
ghost use Rattle.gl_driver.specs.Told.{answer_of, unless_planned, faults_after};
ghost use Rattle.gl_driver.specs.Calls.{FitsOp, Drives};
ghost use Rattle.gl_driver.specs.Levels.{level_at, bits_at, answer_from};

use crate::driver::Driver;
use crate::op::DriverFault;
use crate::port::Port;
use crate::sim::SimPort;
use gl_base::{LINES_PER_REQUEST, Op};
use gl_gate::{Gate, Pass};
use gl_world::Machine;
use std::marker::Model;
use std::sync::Wait;

/// A driver whose lines have fixed levels, as a list by offset. Lines past the list are 0. It never waits, answers
/// 0 to all that is no question for levels, and fails as its port plans.
#[derive(Drop)]
pub struct FakeDriver {
    levels: Vec<bool>,
}

impl Model for FakeDriver {
    ghost use Rattle.std.specs.Prelude.{List, Bool};

    ghost Value = { List Bool };

    ghost view = { λ d. d.levels.items };
}

/// The level of a line.
fn level(levels: &[bool], offset: u32) -> bool
    ensures { result ≡ level_at levels.now offset }
{
    match levels.get(offset as usize) {
        Some(level) => *level,
        None => false,
    }
}

/// The levels of lines as bits, the first line's lowest.
fn bits_of(levels: &[bool], offsets: &[u32]) -> u64
    requires { length offsets.now ≤ LINES_PER_REQUEST }
    ensures bits { result ≡ bits_at levels.now offsets.now }
    ensures few { result < 2 ^ length offsets.now }
{
    match offsets.split_first() {
        Some((first, others)) => 2 * bits_of(levels, others) + u64::from(level(levels, *first)),
        None => 0,
    }
}

impl FakeDriver {
    /// A driver whose lines have these levels.
    pub fn new(levels: Vec<bool>) -> FakeDriver
        ensures { result ≡ levels.items }
    {
        FakeDriver { levels }
    }

    /// What the driver answers.
    fn answer(&self, op: &Op) -> u64
        requires { FitsOp op.now }
        ensures { result ≡ answer_from self.now op.now }
    {
        match op {
            Op::Get { lines } => bits_of(self.levels.as_slice(), lines.offsets()),
            _ => 0,
        }
    }
}

impl<M: Machine> Driver<M> for FakeDriver {
    type Port = SimPort;

    const ENTRIES: u32 = 0;

    ghost ENTRIES = { 0 };

    ghost is_planned = { false };

    ghost OwnEntries = { λ _ _ own. own ≡ [] };

    ghost Follows = { λ _ _ _ _ _ _ _. Unit {0} };

    fn call<R: Wait>(
        &self,
        _rt: &R,
        gate: &Gate<M>,
        port: &mut SimPort,
        pass: &mut Pass<M>,
        place: u8,
        op: &Op,
    ) -> Result<u64, DriverFault>
        requires gate { IsPassOf gate.now pass.old }
        requires inside { IsInside pass.old.view place }
        requires no_turn { HoldsNoTurn pass.old.view }
        requires op { FitsOp op.now }
        ensures answer { answer_of result
            ≡ unless_planned (Some (answer_from self.now op.now)) (⟦<SimPort as Port>⟧.told port.old) }
        ensures gate { IsPassOf gate.now pass.new }
        ensures drives { Drives M.Machine 0 (λ _ _ own. own ≡ []) (λ _ _ _ _ _ _ _. Unit {0}) None op.now
            (⟦<SimPort as Port>⟧.told port.old) (⟦<SimPort as Port>⟧.told port.new) (answer_of result) pass.old.view pass.new.view }
        ensures maps { ⟦<SimPort as Port>⟧.maps port.new ≡ ⟦<SimPort as Port>⟧.maps port.old }
        ensures maps_left { ⟦<SimPort as Port>⟧.maps_left port.new ≡ ⟦<SimPort as Port>⟧.maps_left port.old }
        ensures counted { ⟦<SimPort as Port>⟧.faults port.new
            ≡ faults_after (answer_of result) (⟦<SimPort as Port>⟧.faults port.old) }
        ensures never_falls { ⟦<SimPort as Port>⟧.faults port.old ≤ ⟦<SimPort as Port>⟧.faults port.new }
        ensures fault { IfErr result (λ _. Rises (⟦<SimPort as Port>⟧.faults port.old) (⟦<SimPort as Port>⟧.faults port.new)) }
    {
        port.answer(op, Some(self.answer(op)))
    }

    ghost owns_none = { λ _ _ _ _ is. is };

    ghost follows_plan = { λ planned. absurd (true≢false (sym planned)) };
}
