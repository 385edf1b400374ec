//! The removal of the house.
ghost use Rattle.std.specs.Prelude.{◌≡◌, ℕ, ◌<◌, IfOk, IsTrue};
ghost use Rattle.gl_world.specs.History.{fold};
ghost use Rattle.gl_world.specs.Removal.{Removes};
ghost use Rattle.gl_rule.specs.Turn.{owes};
ghost use Rattle.gl_gate.specs.Values.{IsPassOf};
ghost use Rattle.gl_gate.specs.Calls.{SamePass, IsInside, IsOutside, KnowsClosed, KnowsDrained, RemovesNothing};

use crate::errand::{Answer, Errand};
use crate::house::House;
use gl_base::Errno;
use gl_gate::{Gate, Pass};
use gl_world::Machine;
use std::sync::Wait;

/// Works inside the house.
pub fn work<R: Wait>(rt: &R, gate: &Gate<House>, pass: &mut Pass<House>) -> Result<Answer, Errno>
    requires gate { IsPassOf gate.now pass.old }
    requires free { owes ⟦<House as Machine>⟧ pass.old.view ≡ 0 }
    requires inside { IsInside pass.old.view 0 }
    ensures gate { IsPassOf gate.now pass.new }
    ensures same { SamePass pass.old.view pass.new.view }
    ensures free { owes ⟦<House as Machine>⟧ pass.new.view ≡ 0 }
{
    gate.act(rt, pass, Errand::Work, &mut (), &mut [])
}

/// Records that the pass found the house closed.
pub fn turn_away<R: Wait>(
    rt: &R,
    gate: &Gate<House>,
    pass: &mut Pass<House>,
) -> Result<Answer, Errno>
    requires gate { IsPassOf gate.now pass.old }
    requires free { owes ⟦<House as Machine>⟧ pass.old.view ≡ 0 }
    requires closed { KnowsClosed pass.old.view 0 }
    ensures gate { IsPassOf gate.now pass.new }
    ensures same { SamePass pass.old.view pass.new.view }
    ensures free { owes ⟦<House as Machine>⟧ pass.new.view ≡ 0 }
{
    gate.act(rt, pass, Errand::TurnedAway, &mut (), &mut [])
}

/// Begins the removal of the house, where it is up. The pass removes it from then on, and nothing else.
pub fn begin<R: Wait>(rt: &R, gate: &Gate<House>, pass: &mut Pass<House>) -> bool
    requires gate { IsPassOf gate.now pass.old }
    requires free { owes ⟦<House as Machine>⟧ pass.old.view ≡ 0 }
    requires nothing { RemovesNothing ⟦<House as Machine>⟧ pass.old.view }
    ensures gate { IsPassOf gate.now pass.new }
    ensures same { SamePass pass.old.view pass.new.view }
    ensures owed { IsTrue result → owes ⟦<House as Machine>⟧ pass.new.view ≡ 1 }
    ensures begun { IsTrue result
        → Removes ⟦<House as Machine>⟧ (fold ⟦<House as Machine>⟧ pass.new.view.seen) pass.new.view.number 0 }
    ensures only { (p : ℕ)
        → Removes ⟦<House as Machine>⟧ (fold ⟦<House as Machine>⟧ pass.new.view.seen) pass.new.view.number p
        → p ≡ 0 }
{
    let mut places = [0u8; 2];
    match gate.act(rt, pass, Errand::Remove, &mut (), &mut places) {
        Ok(Answer::Done) => true,
        _ => false,
    }
}

/// Ends the removal of the house, which the pass has drained.
pub fn finish<R: Wait>(rt: &R, gate: &Gate<House>, pass: &mut Pass<House>) -> Answer
    requires gate { IsPassOf gate.now pass.old }
    requires owed { owes ⟦<House as Machine>⟧ pass.old.view ≡ 1 }
    requires only { (p : ℕ)
        → Removes ⟦<House as Machine>⟧ (fold ⟦<House as Machine>⟧ pass.old.view.seen) pass.old.view.number p
        → p ≡ 0 }
    requires drained { KnowsDrained pass.old.view 0 }
    ensures gate { IsPassOf gate.now pass.new }
    ensures same { SamePass pass.old.view pass.new.view }
    ensures free { owes ⟦<House as Machine>⟧ pass.new.view ≡ 0 }
{
    match gate.act(rt, pass, Errand::Finish, &mut (), &mut []) {
        Ok(answer) => answer,
        Err(_) => unreachable!(),
    }
}
