//! What the rule says of the history and of places. Each is a function with nothing to do: its contract is the law, and a
//! caller gets it by the call.
ghost use Rattle.gl_rule.specs.Laws.{DrainedIsEmpty, PlaysAreMoves, KnownDrainedStaysEmpty, ClosedIsLeaving, InsideIsNotGone, OneHistory};

use gl_world::Machine;

/// There is one history, which is legal: what each pass has seen is a beginning of it.
pub fn one_history<M: Machine>()
    ensures { OneHistory M.Machine }
{}

/// Nobody is inside a place that some pass knows drained.
pub fn drained_is_empty<M: Machine>()
    ensures { DrainedIsEmpty M.Machine }
{}

/// What each atomic step of a pass tells it is one of the moves that lead from one state of the table to the next.
pub fn plays_are_moves<M: Machine>()
    ensures { PlaysAreMoves M.Machine }
{}

/// From the moment on at which some pass knows a place drained, nobody is inside it, whatever the passes do.
pub fn known_drained_stays_empty<M: Machine>()
    ensures { KnownDrainedStaysEmpty M.Machine }
{}

/// A place that some pass knows closed is Leaving or Gone in the world after the history.
pub fn closed_is_leaving<M: Machine>()
    ensures { ClosedIsLeaving M.Machine }
{}

/// A place that some pass is inside is not Gone in the world after the history.
pub fn inside_is_not_gone<M: Machine>()
    ensures { InsideIsNotGone M.Machine }
{}
