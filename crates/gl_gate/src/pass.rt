//! Passes.

use atomic_table::Seat;
use gl_rule::{Held, View};
use gl_world::Machine;
use std::marker::Model;

/// A seat of a gate's table.
pub(crate) type GateSeat<M> = Seat<Held<M>, View<M>>;

/// What a thread makes calls with.
///
/// Contracts see a pass as the gate that it is of, and as what it knows: the beginning of the history that
/// it has seen, its own entries, and the places that it is inside or knows closed or drained.
#[derive(Drop)]
pub struct Pass<M: Machine> {
    pub(crate) seat: GateSeat<M>,
    pub(crate) number: u8,
    /// In the first pass, how many passes were made.
    pub(crate) made: u16,
}

impl<M: Machine> Model for Pass<M> {
    ghost use Rattle.gl_gate.specs.Values.{PassValue};
    ghost use Rattle.gl_gate.specs.Rests.{Keeps};

    ghost Value = { PassValue M M.Call M.Reply M.Gift };

    ghost view = { λ p. record { gate = p.seat.table_id; view = p.seat.me.0 } };

    ghost invariant = { λ p. Keeps M.Machine p.seat.me p.number p.made };
}

impl<M: Machine> Pass<M> {
    ghost use Rattle.std.specs.Prelude.{◌≡◌, ◌≤◌};
    ghost use Rattle.gl_world.specs.History.{Legal};
    ghost use Rattle.gl_rule.specs.Turn.{NoStrangers, owes};
    ghost use Rattle.gl_gate.specs.Calls.{HasItsOwn, HoldsNoTurn};

    /// The number of the pass: the actor of its entries. The first pass of a gate has 0.
    ///
    /// Between calls every pass has its own entries in what it has seen, which is legal, owes two second
    /// entries at most, and holds no turn. The first pass has seen no entry of a number that no pass was made
    /// with, so all that it has seen is its own where it is the only pass.
    pub fn number(&self) -> u8
        ensures number { result ≡ self.now.view.number }
        ensures own { HasItsOwn self.now.view }
        ensures legal { Legal M.Machine self.now.view.seen }
        ensures strangers { NoStrangers self.now.view self.now.view.seen }
        ensures owed { owes M.Machine self.now.view ≤ 2 }
        ensures no_turn { HoldsNoTurn self.now.view }
    {
        self.number
    }
}
