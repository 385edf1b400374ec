//! Chips that stand at places of their own: making them, and what a place tells.

ghost use Rattle.std.specs.Prelude.{◌≡◌, ◌<◌, ◌≤◌, length, IfNone};
ghost use Rattle.gl_base.specs.declared.limits.TheConstants.{LINES_MAX};
ghost use Rattle.gl_model.specs.Chips.{place_refusal, probe};
ghost use Rattle.gl_model.specs.Places.{kind_at};
ghost use Rattle.gl_registry.specs.Chips.{chip_at};
ghost use Rattle.gl_core.specs.Shape.{HasPlace};
ghost use Rattle.gl_core.specs.Steps.{Steps, Tells};

use crate::state::State;
use gl_base::{Errno, Kind, Name, Phase, push_within};
use gl_model::{Origin, Reply};

impl State {
    /// Makes a chip outside the tree at the next place, and answers this place. `NoSpc` comes where all places were used.
    pub(crate) fn probe(&mut self, label: Name, lines: u32, kind: Kind) -> Reply
        requires { lines ≤ LINES_MAX }
        ensures { Steps (probe label lines kind) self.old self.new result }
    {
        match self.chips.add(label, lines) {
            Err(errno) => Reply::Refused(errno),
            Ok(place) => {
                let origin = Origin {
                    kind,
                    device: None,
                    remover: None,
                };
                push_within(&mut self.origins, origin);
                self.places.open(lines);
                Reply::Number(u64::from(place))
            }
        }
    }

    /// Why a call that names a place is refused: `NoEnt` where no chip was made there.
    pub(crate) fn place_refusal(&self, place: u8) -> Option<Errno>
        ensures told { Tells (place_refusal place) self.now result }
        ensures there { IfNone result (HasPlace (chip_at self.now.chips place).lines self.now.places place) }
    {
        if self.chips.phase(place) == Phase::Absent {
            Some(Errno::NoEnt)
        } else {
            None
        }
    }

    /// Whether the chip of a place is simulated or remote.
    pub(crate) fn kind(&self, place: u8) -> Kind
        ensures { Tells (λ w. kind_at w place) self.now result }
    {
        match self.origins.get(usize::from(place)) {
            Some(origin) => origin.kind,
            None => Kind::Simulated,
        }
    }
}
