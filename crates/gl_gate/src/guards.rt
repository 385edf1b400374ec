//! The guards of places.
ghost use Rattle.std.specs.Prelude.{◌≡◌, ℕ, ◌+◌, ◌<◌, ◌↔◌, IsTrue, true, false};
ghost use Rattle.gl_world.specs.History.{fold};
ghost use Rattle.gl_world.specs.Events.{DrainedStaysEmpty};
ghost use Rattle.gl_world.specs.Removal.{Removes};
ghost use Rattle.gl_rule.specs.Laws.{KnownDrainedStaysEmpty};
ghost use Rattle.gl_rule.specs.Sums.{without};
ghost use Rattle.gl_rule.specs.Views.{with_inside, without_inside, with_closed, with_drained};
ghost use Rattle.gl_gate.specs.Values.{IsPassOf, knowing};
ghost use Rattle.gl_gate.specs.Calls.{IsInside, IsOutside, KnowsClosed, KnowsDrained, KnowsAsMuch, LearnsOnlyOf, after_look};

use crate::gate::Gate;
use crate::pass::Pass;
use gl_rule::{BackOut, Close, CountInside, Enter, Leave};
use gl_world::Machine;
use std::sync::Wait;
use std::thread;
use std::time::Duration;

/// The bit of a guard word that says that its place is closed. Below it is the count of those inside.
const CLOSED: u64 = 1 << 63;

/// The word of the guard of place 0. Those of the other places follow it.
const FIRST_GUARD: usize = 2;

/// How many microseconds who waits for a place to drain sleeps between two looks.
const NAP: u64 = 100;

impl<M: Machine> Gate<M> {
    /// Enters a place. False where the place was closed, which the pass then knows.
    pub fn enter(&self, pass: &mut Pass<M>, place: u8) -> bool
        requires gate { IsPassOf self.now pass.old }
        requires place { place < self.now.places }
        requires outside { IsOutside pass.old.view place }
        ensures entered { IsTrue result → pass.new ≡ knowing pass.old (with_inside pass.old.view place) }
        ensures refused { result ≡ false → pass.new ≡ knowing pass.old (with_closed pass.old.view place) }
        ensures inside { IsTrue result → IsInside pass.new.view place }
        ensures back { IsTrue result → without place pass.new.view.inside ≡ pass.old.view.inside }
        ensures closed { result ≡ false → KnowsClosed pass.new.view place }
        ensures known { KnowsClosed pass.old.view place → result ≡ false }
        ensures knows { KnowsAsMuch pass.old.view pass.new.view }
        ensures only { LearnsOnlyOf place pass.old.view pass.new.view }
    {
        let word = place as usize + FIRST_GUARD;
        let shared = &self.turnstile.table.shared;
        if shared.fetch_add::<Enter>(&mut pass.seat, word, 1) < CLOSED {
            return true;
        }
        shared.fetch_sub::<BackOut>(&mut pass.seat, word, 1);
        false
    }

    /// Leaves a place.
    pub fn leave(&self, pass: &mut Pass<M>, place: u8)
        requires gate { IsPassOf self.now pass.old }
        requires place { place < self.now.places }
        requires inside { IsInside pass.old.view place }
        ensures { pass.new ≡ knowing pass.old (without_inside pass.old.view place) }
    {
        self.turnstile
            .table
            .shared
            .fetch_sub::<Leave>(&mut pass.seat, place as usize + FIRST_GUARD, 1);
    }

    /// Closes a place whose removal is the pass's own: it has seen the removal's first entry, and the last
    /// one was not made yet. From then on nobody enters the place.
    pub fn close_place(&self, pass: &mut Pass<M>, place: u8)
        requires gate { IsPassOf self.now pass.old }
        requires place { place < self.now.places }
        requires own { Removes M.Machine (fold M.Machine pass.old.view.seen) pass.old.view.number place }
        ensures pass { pass.new ≡ knowing pass.old (with_closed pass.old.view place) }
        ensures closed { KnowsClosed pass.new.view place }
        ensures knows { KnowsAsMuch pass.old.view pass.new.view }
        ensures only { LearnsOnlyOf place pass.old.view pass.new.view }
    {
        self.turnstile
            .table
            .shared
            .fetch_or::<Close>(&mut pass.seat, place as usize + FIRST_GUARD, CLOSED);
    }

    /// Looks once how many are inside a place or at its door. True where it counted nobody; a place that
    /// the pass knew closed is drained then, and stays empty whatever happens: no pass is inside it, now or later.
    pub fn look(&self, pass: &mut Pass<M>, place: u8) -> bool
        requires gate { IsPassOf self.now pass.old }
        requires place { place < self.now.places }
        ensures counted { IsTrue result ↔ (pass.new.view.counted ≡ 0) }
        ensures pass { pass.new ≡ knowing pass.old (after_look pass.old.view pass.new.view) }
        ensures busy { result ≡ false → pass.new.view.drained ≡ pass.old.view.drained }
        ensures empty { IsTrue result → KnowsClosed pass.old.view place
            → pass.new.view ≡ with_drained pass.old.view place }
        ensures drained { IsTrue result → KnowsClosed pass.old.view place → KnowsDrained pass.new.view place }
        ensures stays_empty { DrainedStaysEmpty M.Machine }
        ensures nobody_inside { KnownDrainedStaysEmpty M.Machine }
        ensures knows { KnowsAsMuch pass.old.view pass.new.view }
        ensures only { LearnsOnlyOf place pass.old.view pass.new.view }
    {
        let found = self
            .turnstile
            .table
            .shared
            .load::<CountInside>(&mut pass.seat, place as usize + FIRST_GUARD);
        found == 0 || found == CLOSED
    }

    /// Waits until nobody is inside a place that the pass knows closed and isn't inside itself. From then on
    /// no pass is inside, whatever happens.
    pub fn drain<R: Wait>(&self, rt: &R, pass: &mut Pass<M>, place: u8)
        requires gate { IsPassOf self.now pass.old }
        requires place { place < self.now.places }
        requires closed { KnowsClosed pass.old.view place }
        requires outside { IsOutside pass.old.view place }
        ensures pass { pass.new ≡ knowing pass.old (with_drained pass.old.view place) }
        ensures drained { KnowsDrained pass.new.view place }
        ensures stays_empty { DrainedStaysEmpty M.Machine }
        ensures nobody_inside { KnownDrainedStaysEmpty M.Machine }
        ensures knows { KnowsAsMuch pass.old.view pass.new.view }
        ensures only { LearnsOnlyOf place pass.old.view pass.new.view }
    {
        let word = place as usize + FIRST_GUARD;
        let nap = Duration::from_micros(NAP);
        for _ in rt.forever() {
            if self.look(pass, place) {
                return;
            }
            thread::yield_now();
            // It sleeps where one pass is left there, and looks again at once where there are more.
            self.turnstile.table.shared.park_timeout(rt, word, 1, nap);
        }
        unreachable!()
    }
}
