//! How calls of a gate make a pass grow. Each is a function with nothing to do: its contract is the law, and a
//! caller gets it by the call.
ghost use Rattle.gl_gate.specs.Grown.{GrowsOn, MovesDoNothing, ActsAreDeeds, RefusalsDoNothing, GrownHasItsOwn, StillRemovesNothing};

use gl_world::Machine;

/// What a pass did from one moment to a second and from there to a third is what it did from the first to the
/// third.
pub fn grows_on<M: Machine>()
    ensures { GrowsOn M.Machine }
{}

/// A pass that only went to other places did nothing.
pub fn moves_do_nothing<M: Machine>()
    ensures { MovesDoNothing M.Machine }
{}

/// A call that was made is one deed of its pass, with the bytes that the machine wrote there.
pub fn acts_are_deeds<M: Machine>()
    ensures { ActsAreDeeds M.Machine }
{}

/// A call that the history had no room for is no deed.
pub fn refusals_do_nothing<M: Machine>()
    ensures { RefusalsDoNothing M.Machine }
{}

/// A pass that grew has its own entries in what it has seen, if it had them before.
pub fn grown_has_its_own<M: Machine>()
    ensures { GrownHasItsOwn M.Machine }
{}

/// A pass that removes nothing removes nothing after a call that begins no removal.
pub fn still_removes_nothing<M: Machine>()
    ensures { StillRemovesNothing M.Machine }
{}
