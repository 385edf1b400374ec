//! Making a gate, more passes, and the end.
ghost use Rattle.std.specs.Prelude.{◌≡◌, ◌≢◌, ℕ, ◌+◌, ◌<◌, ◌≤◌, ◌↔◌, [], length, replicate, IfOk, IfErr};
ghost use Rattle.gl_base.specs.declared.errno.Errno.TheVariants.{NoMemory};
ghost use Rattle.gl_world.specs.History.{StartsWith, Legal, fold, entries_of};
ghost use Rattle.gl_world.specs.Removal.{Removes};
ghost use Rattle.gl_rule.specs.Views.{newcomer, with_one_more, taking_in};
ghost use Rattle.gl_gate.specs.Values.{IsPassOf, knowing};
ghost use Rattle.gl_gate.specs.Calls.{HasItsOwn, HasAllOf, KnowsAsMuch, RemovesNothing};

use crate::gate::Gate;
use crate::pass::Pass;
use crate::turnstile::Turnstile;
use atomic_table::Table;
use gl_base::Errno;
use gl_rule::{GateSize, Held, JoinPass, Learn, SplitPass};
use gl_world::{Entry, Machine};
use std::alloc::{AllocError, Global};
use std::sync::Mutex;

// So many words, all 0.
fn zeros(alloc: Global, count: usize) -> Result<Vec<u64>, AllocError>
    ensures { IfOk result (λ words. words.items ≡ replicate count 0) }
{
    vec![in alloc; 0u64; count]
}

impl<M: Machine> Gate<M> {
    /// A gate for a new machine with so many places, and its first pass, whose number is 0. The history
    /// takes `room` entries, and 512 second entries more.
    ///
    /// `NoMemory` when out of memory. The machine is dropped then.
    pub fn new(
        alloc: Global,
        machine: M,
        places: u8,
        room: u32,
    ) -> Result<(Gate<M>, Pass<M>), Errno>
        requires machine { M.stands_for machine M.opening }
        requires few { places ≤ 64 }
        requires some { 1 ≤ places }
        ensures gate { IfOk result (λ made. IsPassOf made.0 made.1) }
        ensures places { IfOk result (λ made. made.0.places ≡ places) }
        ensures first { IfOk result (λ made. made.1.view ≡ newcomer 0 room [] 1 [] []) }
        ensures removes { IfOk result (λ made. RemovesNothing M.Machine made.1.view) }
        ensures memory { IfErr result (λ e. e ≡ NoMemory) }
    {
        let Ok(held) = Held::new(alloc, machine, room) else {
            return Err(Errno::NoMemory);
        };
        let Ok(mut slots) = Vec::with_capacity(alloc, 1) else {
            return Err(Errno::NoMemory);
        };
        slots.push_reserved(held);
        let Ok(words) = zeros(alloc, places as usize + 2) else {
            return Err(Errno::NoMemory);
        };
        let size = GateSize {
            room: room as u64,
            places: places as u64,
        };
        match Table::new(alloc, words.as_slice(), slots, &size) {
            Ok((table, seat)) => Ok((
                Gate {
                    turnstile: Turnstile {
                        table,
                        door: Mutex::new(()),
                    },
                },
                Pass {
                    seat,
                    number: 0,
                    made: 1,
                },
            )),
            Err(_) => Err(Errno::NoMemory),
        }
    }

    /// One more pass. It has the next number, has seen as much as the first pass, and knows as much of
    /// places. A gate has 256 passes at most.
    pub fn split(&self, pass: &mut Pass<M>) -> Pass<M>
        requires gate { IsPassOf self.now pass.old }
        requires first { pass.old.view.number ≡ 0 }
        requires few { pass.old.view.made < 256 }
        ensures old { pass.new ≡ knowing pass.old (with_one_more pass.old.view) }
        ensures gate { IsPassOf self.now result }
        ensures new { let v = pass.old.view in result.view ≡ newcomer v.made v.room v.seen 0 v.closed v.drained }
        ensures own { HasItsOwn pass.new.view × HasItsOwn result.view }
        ensures removes { RemovesNothing M.Machine result.view }
    {
        let number = pass.made as u8;
        let mut seat = self
            .turnstile
            .table
            .shared
            .split_seat::<SplitPass>(&mut pass.seat);
        pass.made += 1;
        self.turnstile.table.shared.load::<Learn>(&mut seat, 1);
        Pass {
            seat,
            number,
            made: 0,
        }
    }

    /// Takes in another pass, which is inside no place: the longer of what both have seen, the other's own
    /// entries and those that it took in, and what it knows of places.
    pub fn join(&self, pass: &mut Pass<M>, other: Pass<M>)
        requires gate { IsPassOf self.now pass.old }
        requires other { IsPassOf self.now other }
        requires not_first { other.view.number ≢ 0 }
        requires outside { other.view.inside ≡ [] }
        ensures joined { pass.new ≡ knowing pass.old (taking_in pass.old.view other.view) }
        ensures seen { StartsWith pass.new.view.seen pass.old.view.seen }
        ensures other_seen { StartsWith pass.new.view.seen other.view.seen }
        ensures knows { KnowsAsMuch pass.old.view pass.new.view }
        ensures own { HasItsOwn pass.new.view }
        ensures removes { (p : ℕ) → Removes M.Machine (fold M.Machine pass.new.view.seen) pass.old.view.number p
            ↔ Removes M.Machine (fold M.Machine pass.old.view.seen) pass.old.view.number p }
    {
        let Pass {
            seat,
            number: _,
            made: _,
        } = other;
        self.turnstile
            .table
            .shared
            .join_seat::<JoinPass>(&mut pass.seat, seat);
        self.turnstile.table.shared.load::<Learn>(&mut pass.seat, 1);
    }

    /// The machine, and the history of all its calls. All other passes were joined into the first one.
    pub fn finish(self, pass: Pass<M>) -> (M, Vec<Entry<M>>)
        requires gate { IsPassOf self pass }
        requires first { pass.view.number ≡ 0 }
        requires all { length pass.view.joined + 1 ≡ pass.view.made }
        ensures machine { M.stands_for result.0 (fold M.Machine result.1.items) }
        ensures legal { Legal M.Machine result.1.items }
        ensures seen { StartsWith result.1.items pass.view.seen }
        ensures mine { entries_of 0 result.1.items ≡ pass.view.mine }
        ensures joined { HasAllOf pass.view.joined result.1.items }
        ensures others { (n : ℕ) → pass.view.made ≤ n → entries_of n result.1.items ≡ [] }
    {
        let Pass {
            seat,
            number: _,
            made: _,
        } = pass;
        let Gate {
            turnstile: Turnstile { table, door: _ },
        } = self;
        let mut closed = table.close_with(seat);
        let Held {
            machine,
            history,
            room: _,
        } = closed.take(0);
        closed.free();
        (machine, history)
    }
}
