//! A driver whose first call is kept until it is let go.
ghost use Rattle.std.specs.Prelude.{◌≡◌, ℕ, ◌≤◌, false, IfOk, IfErr, [], None};
ghost use Rattle.std.proofs.Common.{sym};
ghost use Rattle.std.proofs.lemmas.Bool.{true≢false};
ghost use Rattle.gl_gate.specs.Values.{IsPassOf};
ghost use Rattle.gl_gate.specs.Calls.{IsInside, HoldsNoTurn};
ghost use Rattle.gl_base.specs.Count.{Rises};
ghost use Rattle.gl_driver.specs.Told.{answer_of, unless_planned, faults_after};
ghost use Rattle.gl_driver.specs.Calls.{FitsOp, Drives};

use crate::driver::Driver;
use crate::op::DriverFault;
use crate::port::Port;
use crate::sim::SimPort;
use crate::waiting::waits_for;
use gl_base::Op;
use gl_gate::{Gate, Pass};
use gl_world::Machine;
use std::sync::Wait;
use std::sync::atomic::{AtomicBool, Ordering};

/// Two flags by which a test and a [`LatchDriver`] tell each other how far they are.
#[derive(Drop)]
pub struct Latch {
    /// The driver's first call has begun.
    pub entered: AtomicBool,
    /// The driver's first call may go on.
    pub go: AtomicBool,
}

impl Latch {
    /// A latch whose flags are both false.
    pub fn new() -> Latch {
        Latch {
            entered: AtomicBool::new(false),
            go: AtomicBool::new(false),
        }
    }
}

/// What keeps a driver's first call.
pub trait KeepsFirstCall: Sync + Drop {
    /// Keeps the call until it may go on. False where that takes too many turns.
    fn keep(&self) -> bool;
}

impl KeepsFirstCall for &Latch {
    fn keep(&self) -> bool {
        self.entered.store(true, Ordering::SeqCst);
        waits_for(&self.go)
    }
}

/// A driver whose first call is kept. It answers 0 and fails as its port plans. A first call that is kept for
/// 100,000,000 turns fails too.
#[derive(Drop)]
pub struct FirstCallDriver<L> {
    keeper: L,
    /// The first call was made.
    called: AtomicBool,
}

/// A driver whose first call tells that it has begun and is kept until the latch lets it go, so that a test can
/// do something meanwhile. Its design is this project's choice.
pub type LatchDriver<'a> = FirstCallDriver<&'a Latch>;

impl<'a> FirstCallDriver<&'a Latch> {
    /// A driver with this latch that wasn't called yet.
    pub fn new(latch: &'a Latch) -> LatchDriver<'a> {
        FirstCallDriver {
            keeper: latch,
            called: AtomicBool::new(false),
        }
    }
}

impl<M: Machine, L: KeepsFirstCall> Driver<M> for FirstCallDriver<L> {
    type Port = SimPort;

    const ENTRIES: u32 = 0;

    ghost ENTRIES = { 0 };

    ghost is_planned = { false };

    ghost OwnEntries = { λ _ _ own. own ≡ [] };

    ghost Follows = { λ _ _ _ _ _ _ _. Unit {0} };

    fn call<R: Wait>(
        &self,
        _rt: &R,
        gate: &Gate<M>,
        port: &mut SimPort,
        pass: &mut Pass<M>,
        place: u8,
        op: &Op,
    ) -> Result<u64, DriverFault>
        requires gate { IsPassOf gate.now pass.old }
        requires inside { IsInside pass.old.view place }
        requires no_turn { HoldsNoTurn pass.old.view }
        requires op { FitsOp op.now }
        ensures zero { IfOk result (λ bits. bits ≡ 0) }
        ensures planned_failure { answer_of result ≡ unless_planned (answer_of result) (⟦<SimPort as Port>⟧.told port.old) }
        ensures gate { IsPassOf gate.now pass.new }
        ensures drives { Drives M.Machine 0 (λ _ _ own. own ≡ []) (λ _ _ _ _ _ _ _. Unit {0}) None op.now
            (⟦<SimPort as Port>⟧.told port.old) (⟦<SimPort as Port>⟧.told port.new) (answer_of result) pass.old.view pass.new.view }
        ensures maps { ⟦<SimPort as Port>⟧.maps port.new ≡ ⟦<SimPort as Port>⟧.maps port.old }
        ensures maps_left { ⟦<SimPort as Port>⟧.maps_left port.new ≡ ⟦<SimPort as Port>⟧.maps_left port.old }
        ensures counted { ⟦<SimPort as Port>⟧.faults port.new
            ≡ faults_after (answer_of result) (⟦<SimPort as Port>⟧.faults port.old) }
        ensures never_falls { ⟦<SimPort as Port>⟧.faults port.old ≤ ⟦<SimPort as Port>⟧.faults port.new }
        ensures fault { IfErr result (λ _. Rises (⟦<SimPort as Port>⟧.faults port.old) (⟦<SimPort as Port>⟧.faults port.new)) }
    {
        let is_later = self.called.swap(true, Ordering::SeqCst);
        let answer = if is_later || self.keeper.keep() {
            Some(0)
        } else {
            None
        };
        port.answer(op, answer)
    }

    ghost owns_none = { λ _ _ _ _ is. is };

    ghost follows_plan = { λ planned. absurd (true≢false (sym planned)) };
}
