//! The clocks, and the debounced lines that settle when they go on.

ghost use Rattle.std.specs.Prelude.{◌≡◌, ◌*◌, ◌<◌, ◌^◌, length, slice_get, if◌then◌else◌, IfNone};
ghost use Rattle.gl_base.specs.declared.limits.TheConstants.{LINES_MAX, PLACES};
ghost use Rattle.gl_debounce.specs.Fire.{after_first, fires};
ghost use Rattle.gl_model.specs.Clock.{clock_refusal, fire, tick};
ghost use Rattle.gl_model.specs.Edges.{edge};
ghost use Rattle.gl_core.specs.HeldLines.{HoldersHaveLines};
ghost use Rattle.gl_core.specs.Reached.{IsReached};
ghost use Rattle.gl_core.specs.Steps.{Follows, Steps, Tells};

use crate::state::State;
use gl_base::Errno;
use gl_debounce::Fired;
use gl_model::Reply;

/// A clock has to be below this, in nanoseconds.
const CLOCK_MAX: u64 = 1 << 63;

impl State {
    /// Why new clocks are refused: `Inval` where the monotonic one would go back, and where one of them isn't below 2^63.
    fn clock_refusal(&self, mono: u64, real: u64) -> Option<Errno>
        ensures told { Tells (clock_refusal mono real) self.now result }
        ensures within { IfNone result (mono < 2 ^ 63) }
    {
        if mono < self.mono {
            return Some(Errno::Inval);
        }
        if CLOCK_MAX <= mono || CLOCK_MAX <= real {
            return Some(Errno::Inval);
        }
        None
    }

    /// The first line whose deadline has come, if one has: it settles at its raw level, and no deadline of it runs any more.
    fn next_due(&mut self) -> Option<Fired>
        ensures first { result ≡ slice_get (fires self.old.mono self.old.timers) 0 }
        ensures rest { self.new ≡ record self.old { timers = after_first result self.old.timers } }
        ensures all_lines { length self.old.timers ≡ PLACES * LINES_MAX }
    {
        self.timers.fire(self.mono)
    }

    /// A line has settled. Where that is at another level than before, it is an edge, at the moment of the deadline.
    fn settled(&mut self, line: Fired)
        requires { HoldersHaveLines self.old.places self.old.requests }
        ensures follows { Follows (λ w. if line.changed then edge line.place line.offset line.level line.deadline w else w) self.old self.new }
        ensures lines { HoldersHaveLines self.new.places self.new.requests }
        ensures rest { self.new ≡ record self.old { requests = self.new.requests } }
    {
        if line.changed {
            self.edge(line.place, line.offset, line.level, line.deadline);
        }
    }

    /// All lines settle whose deadline has come, in order of deadline, place and offset.
    fn fire(&mut self)
        requires { HoldersHaveLines self.old.places self.old.requests }
        ensures { Follows fire self.old self.new }
    {
        while let Some(line) = self.next_due() {
            self.settled(line);
        }
    }

    /// Sets both clocks, and then lines settle.
    pub(crate) fn tick(&mut self, mono: u64, real: u64) -> Reply
        requires { IsReached self.old }
        ensures { Steps (tick mono real) self.old self.new result }
    {
        match self.clock_refusal(mono, real) {
            Some(errno) => Reply::Refused(errno),
            None => {
                self.mono = mono;
                self.real = real;
                self.fire();
                Reply::Done
            }
        }
    }
}
