//! The trait of drivers.
ghost use Rattle.std.specs.Prelude.{◌≡◌, ◌≢◌, ℕ, ◌≤◌, Bool, true, List, [], Option, Some, None, IfErr};
ghost use Rattle.gl_world.specs.declared.history.Entry.{Entry};
ghost use Rattle.gl_world.specs.Deeds.{Deed};
ghost use Rattle.gl_gate.specs.Values.{IsPassOf};
ghost use Rattle.gl_gate.specs.Calls.{IsInside, HoldsNoTurn};
ghost use Rattle.gl_base.specs.Count.{Rises};
ghost use Rattle.gl_base.specs.declared.op.Op.{Op};
ghost use Rattle.gl_driver.specs.declared.map.Map.{Map};
ghost use Rattle.gl_driver.specs.Maps.{map_for};
ghost use Rattle.gl_driver.specs.Told.{Told, answer_of, planned_for, faults_after};
ghost use Rattle.gl_driver.specs.Calls.{FitsOp, MayMakeEntries, Drives, OwesAt};

use crate::op::DriverFault;
use crate::port::Port;
use gl_base::{Op, PLACES};
use gl_gate::{Gate, Pass};
use gl_world::Machine;
use std::sync::Wait;

/// What stands for a chip's hardware. It is asked by a pass that is inside the chip's place and holds no turn,
/// so that calls of several passes run side by side. Between the first and the second entry of a command, the place is that of the
/// command (`OwesAt`). The design of drivers is this project's choice.
pub trait Driver<M: Machine>: Sync + Drop {
    /// What an actor asks it through.
    type Port: Port;

    /// How many entries of its own one call makes at most.
    const ENTRIES: u32;

    /// How many entries of its own one call makes at most.
    ghost ENTRIES: { ℕ };

    /// Whether its answers are planned at a place where it goes by no map: a failure at exactly the call that the port's plan
    /// names, else the port's accepted bits to an `Apply`, and 0 to a `Get` and a `Set`.
    ghost is_planned: { Bool };

    /// The entries of its own that a call may make: of the map by which it goes at the place, the operation, and the
    /// entries with their replies.
    ghost OwnEntries: { Option Map → Op → List (Entry M M.Call M.Reply M.Gift) → Type 0 };

    /// The answer that follows, where the driver tells: of the map by which it goes at the place, what the port told before,
    /// the operation, what the pass did in the call, its room, how many entries it had seen at the end, and the answer.
    ghost Follows: { Option Map → Option Told → Op → List (Deed M M.Call M.Reply M.Gift) → ℕ → ℕ → Option ℕ → Type 0 };

    /// Asks the driver of the chip at a place. The answer of a `Get` is the bits of its lines; bit `i` of the answer of an
    /// `Apply` says that the driver debounces the `i`-th of its lines by itself.
    ///
    /// A fault comes only where the port counted one in this call, and the port's count is changed by nothing
    /// else.
    fn call<R: Wait>(
        &self,
        rt: &R,
        gate: &Gate<M>,
        port: &mut Self::Port,
        pass: &mut Pass<M>,
        place: u8,
        op: &Op,
    ) -> Result<u64, DriverFault>
        requires gate { IsPassOf gate.now pass.old }
        requires inside { IsInside pass.old.view place }
        requires asked_here { OwesAt M.Machine pass.old.view place }
        requires no_turn { HoldsNoTurn pass.old.view }
        requires op { FitsOp op.now }
        requires entries { Self.ENTRIES ≢ 0 → MayMakeEntries M.Machine PLACES gate.now pass.old.view place }
        ensures gate { IsPassOf gate.now pass.new }
        ensures drives { Drives M.Machine Self.ENTRIES Self.OwnEntries Self.Follows (map_for Self.ENTRIES place (Self.Port.maps port.old)) op.now
            (Self.Port.told port.old) (Self.Port.told port.new) (answer_of result) pass.old.view pass.new.view }
        ensures maps { Self.Port.maps port.new ≡ Self.Port.maps port.old }
        ensures maps_left { Self.Port.maps_left port.new ≡ Self.Port.maps_left port.old }
        ensures counted { Self.Port.faults port.new ≡ faults_after (answer_of result) (Self.Port.faults port.old) }
        ensures never_falls { Self.Port.faults port.old ≤ Self.Port.faults port.new }
        ensures fault { IfErr result (λ _. Rises (Self.Port.faults port.old) (Self.Port.faults port.new)) };

    /// A driver that makes no entries owns none.
    ghost owns_none: { Self.ENTRIES ≡ 0 → (map : Option Map) (op : Op) (own : List (Entry M M.Call M.Reply M.Gift))
        → Self.OwnEntries map op own → own ≡ [] };

    /// Where it goes by no map, the answer that follows from a planned driver is the planned one.
    ghost follows_plan: { Self.is_planned ≡ true → (t : Told) (op : Op) (did : List (Deed M M.Call M.Reply M.Gift)) (room seen : ℕ) (answer : Option ℕ)
        → Self.Follows None (Some t) op did room seen answer → answer ≡ planned_for op t };
}
