//! What lies in the slot, and one call made on it.
ghost use Rattle.std.specs.Prelude.{◌≡◌, ℕ, ◌+◌, ◌<◌, ◌≤◌, nat_le, ◌∷◌, [], ◌++◌, length, drop, IfOk};
ghost use Rattle.std.specs.Vec.{vec_len, vec_capacity};
ghost use Rattle.gl_world.specs.History.{entry};

use gl_world::{Entry, Machine};
use std::alloc::{AllocError, Global};

/// What lies in the slot: the machine, its history, and the room that was asked for.
///
/// Who has the turn has it alone, and may make calls on it.
#[derive(Drop)]
pub struct Held<M: Machine> {
    /// The machine.
    pub machine: M,
    /// All entries so far.
    pub history: Vec<Entry<M>>,
    /// How many entries the history takes before it is full.
    pub room: u64,
}

impl<M: Machine> Held<M> {
    /// The machine with an empty history that takes `room` entries, and 512 more for the second entries
    /// that passes owe: 256 passes owe two each at most.
    ///
    /// Being out of memory is the only error, and drops the machine.
    pub fn new(alloc: Global, machine: M, room: u32) -> Result<Held<M>, AllocError>
        ensures machine { IfOk result (λ held. held.machine ≡ machine) }
        ensures empty { IfOk result (λ held. held.history.items ≡ []) }
        ensures room { IfOk result (λ held. held.room ≡ room) }
        ensures space { IfOk result (λ held. room + 512 ≤ vec_capacity held.history) }
    {
        let history = Vec::with_capacity(alloc, room as usize + 512)?;
        Ok(Held {
            machine,
            history,
            room: u64::from(room),
        })
    }

    /// The history has as many entries as there is room for, or more.
    pub fn is_full(&self) -> bool
        ensures { result ≡ nat_le self.now.room (vec_len self.now.history) }
    {
        self.history.len() as u64 >= self.room
    }

    /// Makes an actor's call on the machine, and puts its entry after the history.
    pub fn make(&mut self, actor: u8, call: M::Call, gift: &mut M::Gift, out: &mut [u8]) -> M::Reply
        requires fits { M.Fits call gift.old out.old }
        requires space { vec_len self.old.history < vec_capacity self.old.history }
        ensures world { (w : M.World) → M.stands_for self.old.machine w
            → M.stands_for self.new.machine (M.world_after w actor call) }
        ensures reply { (w : M.World) → M.stands_for self.old.machine w → result ≡ M.reply_of w actor call }
        ensures bytes { (w : M.World) → M.stands_for self.old.machine w
            → let bytes = M.bytes_of w actor call in out.new ≡ bytes ++ drop (length bytes) out.old }
        ensures gift { M.Leaves call result gift.old gift.new }
        ensures history { self.new.history.items ≡ self.old.history.items ++ entry actor call result ∷ [] }
        ensures room { self.new.room ≡ self.old.room }
        ensures space { vec_capacity self.new.history ≡ vec_capacity self.old.history }
    {
        let reply = self.machine.step(actor, &call, gift, out);
        self.history.push_reserved(Entry { actor, call, reply });
        reply
    }
}
