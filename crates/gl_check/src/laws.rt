//! What follows of the definitions alone. Each is a function with nothing to do: its contract is the law, and a caller gets it by
//! the call.

ghost use Rattle.std.specs.Prelude.{◌≡◌, ℕ, []};
ghost use Rattle.gl_check.specs.Drivers.{driver_kind, over};
ghost use Rattle.gl_check.specs.Misfit.{MisfitIsNoneForMany};
ghost use Rattle.gl_check.specs.OneChip.{output, plans, printed, takes};
ghost use Rattle.gl_check.specs.OnePort.{OneIsThroughPort};
ghost use Rattle.gl_check.specs.Settled.{IsGivenOneList};

use gl_core::Core;
use gl_driver::Driver;

/// One of a session that makes a chip and lists the chips is its one line, and no driver is asked for it. Computed from the
/// definitions alone.
pub fn one_chip()
    ensures prints { printed ≡ output }
    ensures asks_nothing { takes ≡ [] }
    ensures plans_nothing { plans ≡ [] }
{}

/// For each session and each history: there is no misfit exactly where PlannedTells holds for some texts. Then Many holds for the
/// same texts, and PlannedTells for no others. And no history has two misfits, nor both one and none.
pub fn misfit_is_none_for_many()
    ensures { MisfitIsNoneForMany }
{}

/// One through a port that tells is the same run as One over the list alone, whatever the port told before. Where each call of the driver was for
/// an operation, the port tells in the end as many calls more as One takes of what the driver does, and as its last answer that of the last of them.
pub fn one_is_through_port()
    ensures { OneIsThroughPort }
{}

/// What a session of one actor is given of a planned driver, through a port that tells, is one list, where the driver may do one thing only for each call
/// at a place with a map: all that is taken whole and lawfully is the same, and so is the text.
pub fn given_one_list<D: Driver<Core>>()
    ensures { (left : ℕ) → IsGivenOneList (over left (driver_kind D.ENTRIES D.is_planned D.OwnEntries D.Follows)) }
{}
