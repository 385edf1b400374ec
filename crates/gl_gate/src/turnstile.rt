//! The shared table of a gate, and one turn on it.
ghost use Rattle.std.specs.Prelude.{◌≡◌, ℕ, ◌+◌, ◌%◌, ◌^◌, ◌<◌, ◌≤◌, false, true, length, nat_le, [], IfSome, IfNone};

use crate::pass::GateSeat;
use atomic_table::Table;
use gl_rule::{Commit, FindTurn, GateRule, GateSize, Held, PassOn, TakeTicket, View};
use gl_world::Machine;
use std::alloc::Global;
use std::hint::spin_loop;
use std::sync::{Mutex, MutexGuard, Wait};
use std::thread;

/// The word from which tickets are drawn.
const TICKET: usize = 0;

/// The word that shows whose turn it is.
const SERVING: usize = 1;

/// How often who comes to a closed door looks at it before it sleeps there. A turn is over in a microsecond or two,
/// and who sleeps may take fifty to wake up; so it looks for as long as some turns take, thirty microseconds or more.
const LOOKS: u32 = 200;

/// How often it pauses between two looks, since each look takes the door's word from the processor that has the turn.
const PAUSES: u32 = 32;

// Lets a moment go by.
fn pause() {
    for _ in 0..PAUSES {
        spin_loop();
    }
}

/// The shared words, the slot with the machine, and the views of all passes.
#[derive(Drop)]
pub(crate) struct Turnstile<M: Machine> {
    pub(crate) table: Table<Held<M>, View<M>, GateSize, GateRule<M>, Global>,
    /// Who has it locked may draw a ticket, so that the ticket drawn is the one that is served next. The others
    /// look for a moment whether the door is open and then sleep at it, instead of looking again and again whether
    /// it is their turn.
    pub(crate) door: Mutex<()>,
    pub ghost words: { table.shared.table_id.words ≡ table.shared.key.places + 2 },
    pub ghost slots: { table.shared.table_id.slots ≡ 1 },
}

impl<M: Machine> Turnstile<M> {
    ghost use Rattle.atomic_table.specs.Table.{step};
    ghost use mathlib.Core.Option.{none};
    ghost use Rattle.gl_rule.specs.Sums.{number_or_zero};
    ghost use Rattle.gl_rule.specs.Views.{with_turn_passed};
    ghost use Rattle.gl_rule.specs.Plays.{EntryCommitted};
    ghost use Rattle.gl_gate.specs.Rests.{AtRest, Keeps};
    ghost use Rattle.gl_gate.specs.Calls.{SamePass, MayCall, MayName, MayEndRemoval, Acts, Refuses};
    ghost use Rattle.gl_gate.specs.Turns.{Waits, Drew, FoundTurn, HasTurn, Made, MayCommitSeat};

    // Goes through the door.
    fn pass_door<R: Wait>(&self, rt: &R) -> MutexGuard<'_, ()> {
        for _ in 0..LOOKS {
            if let Some(inside) = self.door.try_lock() {
                return inside;
            }
            pause();
        }
        self.door.lock(rt)
    }

    // Draws a ticket.
    fn draw(&self, seat: &mut GateSeat<M>) -> u64
        requires gate { seat.old.table_id ≡ self.now.table.shared.table_id }
        requires rests { AtRest seat.old.me }
        ensures gate { seat.new.table_id ≡ seat.old.table_id }
        ensures ticket { Drew seat.old.me result seat.new.me }
    {
        self.table.shared.fetch_add::<TakeTicket>(seat, TICKET, 1)
    }

    // Waits until it is the ticket's turn.
    fn wait<R: Wait>(&self, rt: &R, seat: &mut GateSeat<M>, ticket: u64)
        requires gate { seat.old.table_id ≡ self.now.table.shared.table_id }
        requires waits { Waits seat.old.me }
        requires ticket { ticket ≡ number_or_zero seat.old.me.0.ticket % 2 ^ 64 }
        ensures gate { seat.new.table_id ≡ seat.old.table_id }
        ensures turn { FoundTurn M.Machine seat.old.me seat.new.me }
    {
        for _ in rt.forever() {
            if self.table.shared.load::<FindTurn>(seat, SERVING) == ticket {
                return;
            }
            thread::yield_now();
        }
        unreachable!()
    }

    // The history has as many entries as there is room for, or more.
    fn is_full(&self, seat: &mut GateSeat<M>) -> bool
        requires gate { seat.old.table_id ≡ self.now.table.shared.table_id }
        requires turn { HasTurn M.Machine seat.old.me }
        ensures gate { seat.new.table_id ≡ seat.old.table_id }
        ensures same { seat.new.me ≡ seat.old.me }
        ensures full { result ≡ nat_le seat.old.me.0.room (length seat.old.me.0.seen) }
    {
        let held = seat.slot_mut(&self.table.shared, 0);
        held.is_full()
    }

    // There is no room, and the call is no second entry.
    fn refuses(&self, seat: &mut GateSeat<M>, call: &M::Call) -> bool
        requires gate { seat.old.table_id ≡ self.now.table.shared.table_id }
        requires turn { HasTurn M.Machine seat.old.me }
        ensures gate { seat.new.table_id ≡ seat.old.table_id }
        ensures same { seat.new.me ≡ seat.old.me }
        ensures yes { result ≡ true
            → (seat.new.me.0.room ≤ length seat.new.me.0.seen) × (M.ends call.now ≡ false) }
        ensures no { result ≡ false → M.ends call.now ≡ false → length seat.new.me.0.seen < seat.new.me.0.room }
    {
        self.is_full(seat) && !M::ends(call)
    }

    // Makes the call in the slot.
    fn make(
        &self,
        seat: &mut GateSeat<M>,
        number: u8,
        call: &M::Call,
        gift: &mut M::Gift,
        out: &mut [u8],
    ) -> M::Reply
        requires gate { seat.old.table_id ≡ self.now.table.shared.table_id }
        requires turn { HasTurn M.Machine seat.old.me }
        requires fits { M.Fits call.now gift.old out.old }
        requires room { M.ends call.now ≡ false → length seat.old.me.0.seen < seat.old.me.0.room }
        requires owed { MayCall M.Machine seat.old.me.0 call.now }
        ensures gate { seat.new.table_id ≡ seat.old.table_id }
        ensures in_range { M.FitsCall call.now }
        ensures second { M.ends call.now ≡ true → M.begins call.now result ≡ false }
        ensures gift { M.Leaves call.now result gift.old gift.new }
        ensures made { Made M.Machine seat.old.me number call.now result out.old out.new seat.new.me }
    {
        let held = seat.slot_mut(&self.table.shared, 0);
        held.make(number, *call, gift, out)
    }

    // Commits the entry that stands last in the slot, and ends the turn.
    fn commit(&self, seat: &mut GateSeat<M>)
        requires gate { seat.old.table_id ≡ self.now.table.shared.table_id }
        requires entry { MayCommitSeat M.Machine seat.old.me }
        ensures gate { seat.new.table_id ≡ seat.old.table_id }
        ensures entry { EntryCommitted (step 1 1 1 0 none) seat.old.me 0 seat.new.me }
    {
        self.table.shared.fetch_add::<Commit>(seat, SERVING, 1);
    }

    // Ends the turn without an entry.
    fn pass_on(&self, seat: &mut GateSeat<M>)
        requires gate { seat.old.table_id ≡ self.now.table.shared.table_id }
        requires turn { HasTurn M.Machine seat.old.me }
        ensures gate { seat.new.table_id ≡ seat.old.table_id }
        ensures view { seat.new.me ≡ (with_turn_passed seat.old.me.0, []) }
    {
        self.table.shared.fetch_add::<PassOn>(seat, SERVING, 1);
    }

    // One call, from the door and the ticket to the end of the turn. Nothing where the history is full.
    pub(crate) fn serve<R: Wait>(
        &self,
        rt: &R,
        seat: &mut GateSeat<M>,
        number: u8,
        call: &M::Call,
        gift: &mut M::Gift,
        out: &mut [u8],
    ) -> Option<M::Reply>
        requires gate { seat.old.table_id ≡ self.now.table.shared.table_id }
        requires keeps { Keeps M.Machine seat.old.me number seat.old.me.0.made }
        requires fits { M.Fits call.now gift.old out.old }
        requires owed { MayCall M.Machine seat.old.me.0 call.now }
        requires named { MayName M.Machine seat.old.me.0 call.now }
        requires last { MayEndRemoval M.Machine seat.old.me.0 call.now }
        ensures gate { seat.new.table_id ≡ seat.old.table_id }
        ensures keeps { Keeps M.Machine seat.new.me number seat.old.me.0.made }
        ensures same { SamePass seat.old.me.0 seat.new.me.0 }
        ensures acts { IfSome result (λ r. Acts M.Machine seat.old.me.0 call.now r out.old out.new seat.new.me.0) }
        ensures gift { IfSome result (λ r. M.Leaves call.now r gift.old gift.new) }
        ensures refuses { IfNone result (Refuses M.Machine seat.old.me.0 call.now seat.new.me.0) }
        ensures untouched { IfNone result ((gift.new ≡ gift.old) × (out.new ≡ out.old)) }
    {
        let _inside = self.pass_door(rt);
        let ticket = self.draw(seat);
        self.wait(rt, seat, ticket);
        if self.refuses(seat, call) {
            self.pass_on(seat);
            return None;
        }
        let reply = self.make(seat, number, call, gift, out);
        self.commit(seat);
        Some(reply)
    }
}
