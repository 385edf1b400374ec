//! The levels of lines, as the outside sets and reads them: the pull of a line of a simulated chip, and the level that an
//! interrupt of a remote chip tells.

ghost use Rattle.std.specs.Prelude.{◌≡◌, ◌<◌, length, IfNone};
ghost use Rattle.gl_model.specs.Pulls.{interrupt, level_refusal, pull, pull_line, read_level};
ghost use Rattle.gl_model.specs.Places.{kind_at};
ghost use Rattle.gl_core.specs.HeldLines.{HoldersHaveLines};
ghost use Rattle.gl_core.specs.Levels.{is_wanted};
ghost use Rattle.gl_core.specs.Reached.{IsReached};
ghost use Rattle.gl_core.specs.Shape.{HasLine};
ghost use Rattle.gl_core.specs.Steps.{Follows, Steps, Tells};

use crate::state::State;
use gl_base::{Errno, Kind, Phase};
use gl_model::Reply;

impl State {
    /// Why a call on a line of one kind of chip is refused, first case first: `NoEnt` where no chip was made there; `Inval`
    /// where the chip has no such line, and where it is of the other kind.
    fn level_refusal(&self, place: u8, offset: u32, wanted: Kind) -> Option<Errno>
        ensures told { Tells (λ w. level_refusal place offset (is_wanted wanted (kind_at w place)) w) self.now result }
        ensures there { IfNone result (HasLine self.now.places place offset) }
    {
        if self.chips.phase(place) == Phase::Absent {
            return Some(Errno::NoEnt);
        }
        if self.chips.lines(place) <= offset {
            return Some(Errno::Inval);
        }
        match (wanted, self.kind(place)) {
            (Kind::Simulated, Kind::Simulated) | (Kind::Remote, Kind::Remote) => None,
            (Kind::Simulated, Kind::Remote) | (Kind::Remote, Kind::Simulated) => Some(Errno::Inval),
        }
    }

    /// Pulls a line. Where its physical level changes by that, this is a raw edge.
    fn pull_line(&mut self, place: u8, offset: u32, up: bool)
        requires there { HasLine self.old.places place offset }
        requires lines { HoldersHaveLines self.old.places self.old.requests }
        ensures { Follows (pull_line place offset up) self.old self.new }
    {
        let change = self.places.pull(place, offset, up);
        self.raw_edge(place, offset, change);
    }

    /// Sets the pull of a line of a simulated chip.
    pub(crate) fn pull(&mut self, place: u8, offset: u32, up: bool) -> Reply
        requires { IsReached self.old }
        ensures { Steps (pull place offset up) self.old self.new result }
    {
        match self.level_refusal(place, offset, Kind::Simulated) {
            Some(errno) => Reply::Refused(errno),
            None => {
                self.pull_line(place, offset, up);
                Reply::Done
            }
        }
    }

    /// A remote chip tells the level of a line, which is kept as its pull.
    pub(crate) fn interrupt(&mut self, place: u8, offset: u32, up: bool) -> Reply
        requires { IsReached self.old }
        ensures { Steps (interrupt place offset up) self.old self.new result }
    {
        match self.level_refusal(place, offset, Kind::Remote) {
            Some(errno) => Reply::Refused(errno),
            None => {
                self.pull_line(place, offset, up);
                Reply::Done
            }
        }
    }

    /// Reads the physical level of a line of a simulated chip, or its pull.
    pub(crate) fn read_level(&self, place: u8, offset: u32, pull: bool) -> Reply
        ensures { Steps (read_level place offset pull) self.now self.now result }
    {
        match self.level_refusal(place, offset, Kind::Simulated) {
            Some(errno) => Reply::Refused(errno),
            None => {
                let bank = &self.places.at(place).bank;
                let up = if pull {
                    bank.pull(offset)
                } else {
                    bank.level(offset)
                };
                Reply::Number(u64::from(up))
            }
        }
    }
}
