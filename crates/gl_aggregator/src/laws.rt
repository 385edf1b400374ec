//! What a call of an aggregator comes to. Each is a function with nothing to do: its contract is the law, and a caller gets it by the call.
ghost use Rattle.std.specs.Prelude.{None};
ghost use Rattle.gl_aggregator.specs.Aggregating.{EachTargetIsTold, FailsInJustTheseCases, FollowsByMore, FullStandsBefore};
ghost use Rattle.gl_aggregator.specs.Gather.{GatheredBits, GetGivesBits};
ghost use Rattle.gl_aggregator.specs.Joined.{LinesAreInOneTarget};
ghost use Rattle.gl_aggregator.specs.Plans.{PlannedOnMaps};
ghost use Rattle.gl_aggregator.specs.Quiet.{OwnEntriesAreQuiet};
ghost use Rattle.gl_aggregator.specs.Settled.{DoesOneThing};

use gl_core::Core;
use gl_driver::Driver;

/// A line of an aggregated chip is in one target at most.
pub fn lines_are_in_one_target()
    ensures { LinesAreInOneTarget }
{}

/// What a Get on an aggregated chip is answered are the bits that were written at the tells of its targets, each at the place of its line. A Set
/// and an Apply are answered 0.
pub fn gathered_bits()
    ensures { GatheredBits }
{}

/// GET_VALUES on an aggregated chip gives, for lines without a debounce period, the bits that were written at the tells of its targets.
pub fn get_gives_bits()
    ensures { GetGivesBits }
{}

/// An answer that follows is a failure in just the cases that are named, and where it is none, each target was told.
pub fn fails_in_just_these_cases<D: Driver<Core>>()
    ensures fails { FailsInJustTheseCases (D.Follows None) }
    ensures told { EachTargetIsTold (D.Follows None) }
{}

/// The entries that an aggregator makes of its own begin no removal, end none, and request no lines: so it may be
/// the driver of a device.
pub fn own_entries_are_quiet()
    ensures { OwnEntriesAreQuiet }
{}

/// An answer that follows by the entries that a pass had seen follows by all that stand before the tell of its call, of whichever actors they are. So
/// where its own entries ended because the history was full, at least as many entries as there is room for stand there.
pub fn full_stands_before_the_tell<D: Driver<Core>>()
    ensures follows { FollowsByMore (D.Follows None) }
    ensures full { FullStandsBefore (D.Follows None) }
{}

/// Over a planned driver the tells of a call at a place with a map hold the planned answers.
pub fn planned_on_maps<D: Driver<Core>>()
    ensures { PlannedOnMaps D.is_planned (D.Follows None) }
{}

/// What an aggregator over a planned driver may do in one call at a place with a map, for an actor that is alone in a world, through a port that tells, is
/// one list of entries with one answer, where the history has room for all of it.
pub fn does_one_thing<D: Driver<Core>>()
    ensures { DoesOneThing D.is_planned (D.Follows None) }
{}
