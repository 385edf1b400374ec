//! The laws of the core: what is true of it at every moment, and what its calls are known to keep. Each is a function with nothing
//! to do: its contract is the law, and a caller gets it by the call. Those of the machine, over worlds, stand in `gl_model`, and those of
//! its steps over whole histories at [`Core`]'s `step`.

ghost use Rattle.gl_model.specs.Refusing.{RefusalsLeaveAll};
ghost use Rattle.gl_core.specs.KeptEdges.{KeptRequestsKeepEdges};
ghost use Rattle.gl_core.specs.Refusing.{RefusalsLeaveTheCore};
ghost use Rattle.gl_core.specs.WellKept.{IsWellKept};

pub use crate::history::first_bad;
use crate::machine::Core;
use gl_model::answers;

/// What is kept of a sound request keeps its edges, as a row of the table of requests does.
pub fn kept_requests_keep_edges()
    ensures { KeptRequestsKeepEdges }
{}

/// What is true of a core at every moment. Chips, origins and places are as many, each place's tables have its chip's lines, and each
/// line of each place has its timer; a line that its driver debounces has no deadline; the monotonic clock is below 2^63; a request
/// has 1 to 64 lines and room for 1 to 1024 events.
/// A line has one holder; requests and files have different numbers, below the next one, which is at most 2^31; an actor has one
/// unfinished claim at most; and names are names.
pub fn core_is_well_kept(core: &Core)
    ensures { IsWellKept core.now }
{
    core.state.has_its_tables();
}

/// A refused call leaves the world as it was and writes nothing, and so does a refused call of the core: each table stays, and the
/// buffer. The one exception is a request of lines that is told and refused with EIO: then the driver failed, and of the world just
/// the actor's claim is dropped with the holds of its lines.
pub fn refusals_leave_all()
    ensures worlds { RefusalsLeaveAll }
    ensures core { RefusalsLeaveTheCore }
{
    answers::refusals_leave_all();
}
