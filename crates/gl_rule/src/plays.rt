//! The atomic steps: what each tells the pass that makes it.
ghost use Rattle.gl_rule.specs.Plays.{TicketTaken, TurnSought, EntryCommitted, TurnPassedOn, ViewLearnt};
ghost use Rattle.gl_rule.specs.Plays.{PlaceEntered, PlaceLeft, KnockEnded, PlaceClosed, GuardCounted};
ghost use Rattle.gl_rule.specs.Views.{newcomer, with_one_more, taking_in, joined_into_another};

use crate::held::Held;
use crate::view::View;
use atomic_table::{Join, Play, Split};
use gl_world::Machine;

/// Adds one to the ticket word: the pass has a ticket.
pub struct TakeTicket;

impl<M: Machine> Play<Held<M>, View<M>> for TakeTicket {
    ghost then = { λ st a r b. TicketTaken st a r b };
}

/// Loads the serving word. Where it is the pass's ticket, the pass has the turn and what lies in the slot.
pub struct FindTurn;

impl<M: Machine> Play<Held<M>, View<M>> for FindTurn {
    ghost then = { λ st a r b. TurnSought M.Machine st a r b };
}

/// Adds one to the serving word: the pass's entry stands in the history, and its turn has ended.
pub struct Commit;

impl<M: Machine> Play<Held<M>, View<M>> for Commit {
    ghost then = { λ st a r b. EntryCommitted st a r b };
}

/// Adds one to the serving word without an entry: the pass's turn has ended.
pub struct PassOn;

impl<M: Machine> Play<Held<M>, View<M>> for PassOn {
    ghost then = { λ st a r b. TurnPassedOn st a r b };
}

/// Loads the serving word, and changes nothing: the pass learns what the rule says of its own view.
pub struct Learn;

impl<M: Machine> Play<Held<M>, View<M>> for Learn {
    ghost then = { λ st a r b. ViewLearnt M.Machine st a r b };
}

/// Makes one more pass.
pub struct SplitPass;

impl<M: Machine> Split<View<M>> for SplitPass {
    ghost left = { λ v. with_one_more v };

    ghost right = { λ v. newcomer v.made v.room v.seen 0 v.closed v.drained };
}

/// Takes another pass in.
pub struct JoinPass;

impl<M: Machine> Join<View<M>> for JoinPass {
    ghost both = { λ v w. taking_in v w };

    ghost spent = { joined_into_another };
}

/// Adds one to a guard word: the pass is inside, or it found the place closed.
pub struct Enter;

impl<M: Machine> Play<Held<M>, View<M>> for Enter {
    ghost then = { λ st a r b. PlaceEntered st a r b };
}

/// Takes one from the guard word of a place that was found closed.
pub struct BackOut;

impl<M: Machine> Play<Held<M>, View<M>> for BackOut {
    ghost then = { λ st a r b. KnockEnded st a r b };
}

/// Takes one from the guard word of a place that the pass is inside.
pub struct Leave;

impl<M: Machine> Play<Held<M>, View<M>> for Leave {
    ghost then = { λ st a r b. PlaceLeft st a r b };
}

/// Sets the closed bit of a guard word.
pub struct Close;

impl<M: Machine> Play<Held<M>, View<M>> for Close {
    ghost then = { λ st a r b. PlaceClosed st a r b };
}

/// Loads a guard word: how many are there, and whether the place is drained.
pub struct CountInside;

impl<M: Machine> Play<Held<M>, View<M>> for CountInside {
    ghost then = { λ st a r b. GuardCounted st a r b };
}
