//! What follows of a session that one actor carried out on the device. Each is a function with nothing to do: its contract is
//! the law, and a caller gets it by the call.

ghost use Rattle.std.specs.Prelude.{◌≡◌, ℕ};
ghost use Rattle.gl_check.specs.Drivers.{driver_kind, over};
ghost use Rattle.gl_session.specs.Alone.{AnswersAsPlanned, AsksLawfully, FirstActorIsAlone, FirstActorSeesItself, PortTells, PrintsOne, PrintsOver};
ghost use Rattle.gl_session.specs.Closings.{ActorsCloseByNumber, OneActorClosesByNumber};
ghost use Rattle.gl_session.specs.Judged.{RunsAreLawful};
ghost use Rattle.gl_session.specs.Many.{AllPlayedCameToMany};
ghost use Rattle.gl_session.specs.Output.{OutputTellsHistory};
ghost use Rattle.gl_session.specs.Run.{TextsTellHistory};
ghost use Rattle.gl_session.specs.Together.{ActorsAtWorkHaveRoom};
ghost use Rattle.gl_session.specs.Verdict.{LawfulIsYes, YesIsLawful};
ghost use Rattle.gl_session.specs.Within.{CallsComeBelowCost, CallsHaveRoom, EntriesWithinCost, EntriesWithinPlainCost, SessionsCostTheirParts, SessionsKeepWithinCost};

use crate::judging::CHECK_MAX;
use gl_check::laws::misfit_is_none_for_many;
use gl_core::Core;
use gl_driver::Driver;
use gl_trace::laws::histories_are_read_back;

/// Where the first actor of a device made all of its calls, the history has its entries alone; and until another actor is made
/// it has seen its entries alone.
pub fn first_actor_is_alone()
    ensures history { FirstActorIsAlone }
    ensures seen { FirstActorSeesItself }
{}

/// What one actor alone prints is One over what the driver did where it was asked: the calls that it made of its own, each answered by the
/// machine's step, and its answer. Where no port keeps maps that is One of the answers that the driver's tells have in order. One takes just these,
/// and makes as many entries as the history has.
pub fn prints_one<D: Driver<Core>>()
    ensures over { (left : ℕ) → PrintsOver (over left (driver_kind D.ENTRIES D.is_planned D.OwnEntries D.Follows)) }
    ensures answers { (left : ℕ) → PrintsOne (over left (driver_kind D.ENTRIES D.is_planned D.OwnEntries D.Follows)) }
{}

/// Over a port of a planned driver that tells, these answers are those that its plan and the statements say where no port keeps maps: of a new one
/// those of Planned.
pub fn answers_as_planned<D: Driver<Core>>()
    ensures { (left : ℕ) → AnswersAsPlanned (over left (driver_kind D.ENTRIES D.is_planned D.OwnEntries D.Follows)) }
{}

/// Each call of the driver that one actor alone has made is one that it may make, with an answer that follows by what the port told then, where
/// there was room for its own calls.
pub fn asks_lawfully<D: Driver<Core>>()
    ensures { (left : ℕ) → AsksLawfully (over left (driver_kind D.ENTRIES D.is_planned D.OwnEntries D.Follows)) }
{}

/// The actor's port tells in the end all that the statements and the calls make of what it told before: how many calls, the plan, the
/// accepted bits, and the operation and the answer of the last call. Where it told and no port keeps maps, these are as many calls more as there are such
/// answers, and as its last answer the last of these.
pub fn port_tells<D: Driver<Core>>()
    ensures { (left : ℕ) → PortTells (over left (driver_kind D.ENTRIES D.is_planned D.OwnEntries D.Follows)) }
{}

/// Whatever it is answered, a program that an actor carries out on the device makes no more entries than five times what it costs, over a driver
/// that makes eight of its own at most for a call: each file that is open counts one, for its closing. Where its next operation is a call of the
/// device, it has made fewer. Where no port keeps a map it makes no more than it costs.
pub fn programs_keep_within_cost<D: Driver<Core>>()
    ensures so_far { EntriesWithinCost (driver_kind D.ENTRIES D.is_planned D.OwnEntries D.Follows) }
    ensures before_a_call { CallsComeBelowCost (driver_kind D.ENTRIES D.is_planned D.OwnEntries D.Follows) }
    ensures plainly { EntriesWithinPlainCost (driver_kind D.ENTRIES D.is_planned D.OwnEntries D.Follows) }
{}

/// The three parts of a session cost together what it costs, and a session of one actor makes no more entries than that. So a
/// history with room for them is not full before any of its calls.
pub fn sessions_keep_within_cost<D: Driver<Core>>()
    ensures parts { SessionsCostTheirParts }
    ensures whole { (left : ℕ) → SessionsKeepWithinCost (over left (driver_kind D.ENTRIES D.is_planned D.OwnEntries D.Follows)) }
    ensures before_a_call { (left : ℕ) → CallsHaveRoom (over left (driver_kind D.ENTRIES D.is_planned D.OwnEntries D.Follows)) }
{}

/// While one of several actors at work has a call of the device before it, their history has fewer entries than the session costs. So with
/// room for these it is not full then, whatever the others did meanwhile.
pub fn actors_at_work_have_room<D: Driver<Core>>()
    ensures { (left : ℕ) → ActorsAtWorkHaveRoom (over left (driver_kind D.ENTRIES D.is_planned D.OwnEntries D.Follows)) }
{}

/// What all actors of a session carried out, `setup` and `after` among them, comes to Many, whatever the driver and its ports are; over
/// new ports of a planned driver its tells are as planned; each port tells in the end what the history tells of its actor; and the
/// history has no more entries than the session costs.
pub fn all_played_came_to_many<D: Driver<Core>>()
    ensures { (left : ℕ) → AllPlayedCameToMany (over left (driver_kind D.ENTRIES D.is_planned D.OwnEntries D.Follows)) }
{}

/// The output of a session of several actors tells one history at most, whatever was printed in front of it: two outputs that are the
/// same have the same history. So what `run` wrote tells the history that its session came to.
pub fn output_tells_history<D: Driver<Core>, E: Driver<Core>>()
    ensures of_entries { OutputTellsHistory }
    ensures of_runs { (left other : ℕ) → TextsTellHistory (over left (driver_kind D.ENTRIES D.is_planned D.OwnEntries D.Follows)) (over other (driver_kind E.ENTRIES E.is_planned E.OwnEntries E.Follows)) }
{}

/// The end of each actor's section closes just the files that are open in it then, in the order of their numbers, and leaves none, unless
/// the device refused a closing of one of its statements. So does the end of `after`, of the files that `setup` and `after` left open.
pub fn actors_close_by_number<D: Driver<Core>>()
    ensures several { (left : ℕ) → ActorsCloseByNumber (over left (driver_kind D.ENTRIES D.is_planned D.OwnEntries D.Follows)) }
    ensures one_actor { (left : ℕ) → OneActorClosesByNumber (over left (driver_kind D.ENTRIES D.is_planned D.OwnEntries D.Follows)) }
{}

/// A run that was printed is judged to be lawful exactly where it is: an input within its length whose session has two or more actors and no `aggregate`, and
/// whose output is that of some texts and some history with Many and PlannedTells.
pub fn lawful_runs_are_judged_so()
    ensures yes { YesIsLawful }
    ensures lawful { LawfulIsYes }
{
    misfit_is_none_for_many();
    histories_are_read_back();
}

/// Each output that a session of several actors without `aggregate` came to over new ports of a planned driver is a lawful run, where it isn't too long.
pub fn runs_are_lawful<D: Driver<Core>>()
    ensures { (left : ℕ) → RunsAreLawful (over left (driver_kind D.ENTRIES D.is_planned D.OwnEntries D.Follows)) }
{}

/// The limit is this number.
pub fn limits_by_value()
    ensures check { CHECK_MAX ≡ 67108864 }
{}
