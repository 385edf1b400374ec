//! The laws of every machine, over every list of events and every legal history. Each is a function with
//! nothing to do: its contract is the law, and a caller gets it by the call.

ghost use Rattle.gl_world.specs.Deeds.{DeedsStand, DeedsStay};
ghost use Rattle.gl_world.specs.Events.{AlwaysLegal, PhasesGoForward, DrainedStaysEmpty, NothingAfterGone};
ghost use Rattle.gl_world.specs.Removal.{OwnRemovals, StrangersRemoveNothing, QuietEntriesKeepRemovals};
ghost use Rattle.gl_world.specs.Worlds.{WorldsAreSound, LeavingHasRemover, ClosedIsGoneOrAnothers, PhasesNeverFall, RefusedIsClosing, NothingBehindGone};

use crate::machine::Machine;

/// Whatever happens, in whatever order, the history is legal.
pub fn every_run_is_legal<M: Machine>()
    ensures { AlwaysLegal M.Machine }
{}

/// Whatever happens, a phase only goes forward, and a closed place is Leaving or Gone.
pub fn phases_go_forward<M: Machine>()
    ensures { PhasesGoForward M.Machine }
{}

/// Whatever happens, nobody is inside a place from the moment on at which some pass has drained it.
pub fn drained_stays_empty<M: Machine>()
    ensures { DrainedStaysEmpty M.Machine }
{}

/// Whatever happens, no guarded call stands behind the entry that made its place Gone.
pub fn nothing_after_gone<M: Machine>()
    ensures { NothingAfterGone M.Machine }
{}

/// The places that an actor removes are known from its own entries: entries of others change nothing of
/// them, and each of its own entries changes them by what its call, reply and bytes name.
pub fn removals_go_on<M: Machine>()
    ensures { OwnRemovals M.Machine }
{}

/// An actor that made no entry removes no place.
pub fn strangers_remove_nothing<M: Machine>()
    ensures { StrangersRemoveNothing M.Machine }
{}

/// What an actor removes stays as it is while its own entries have nothing to do with removals.
pub fn quiet_entries_keep_removals<M: Machine>()
    ensures { QuietEntriesKeepRemovals M.Machine }
{}

/// In a legal history a phase only goes forward.
pub fn phases_never_fall<M: Machine>()
    ensures { PhasesNeverFall M.Machine }
{}

/// In a legal history a place is Leaving or Gone from an entry on that was refused at its closed guard.
pub fn refused_is_closing<M: Machine>()
    ensures { RefusedIsClosing M.Machine }
{}

/// No guarded call of a legal history stands behind the entry that made its place Gone.
pub fn nothing_behind_gone<M: Machine>()
    ensures { NothingBehindGone M.Machine }
{}

/// Each world that a legal history leads to is sound.
pub fn legal_worlds_are_sound<M: Machine>()
    ensures { WorldsAreSound M.Machine }
{}

/// In each world that a legal history leads to, a place that is Leaving has an actor that removes it.
pub fn leaving_has_remover<M: Machine>()
    ensures { LeavingHasRemover M.Machine }
{}

/// In each world that a legal history leads to, a place that is Leaving or Gone is Gone or another's, where
/// the actor doesn't remove it.
pub fn closed_is_gone_or_anothers<M: Machine>()
    ensures { ClosedIsGoneOrAnothers M.Machine }
{}

/// Each deed of an actor stands at one place of a legal history, and its reply and its bytes are the
/// machine's in the world of the entries before it.
pub fn deeds_stand<M: Machine>()
    ensures { DeedsStand M.Machine }
{}

/// An actor's deeds in a history are those in any beginning of it that has all the actor's entries.
pub fn deeds_stay<M: Machine>()
    ensures { DeedsStay M.Machine }
{}
