//! What is done with the interrupts of lines.

ghost use Rattle.std.specs.Prelude.{◌≡◌, ◌∷◌, [], nat_le, IfNone};
ghost use Rattle.gl_base.specs.Refusals.{first_of, when};
ghost use Rattle.gl_base.specs.declared.errno.Errno.TheVariants.{Inval};
ghost use Rattle.gl_model.specs.Chips.{place_refusal};
ghost use Rattle.gl_model.specs.Interrupts.{irq};
ghost use Rattle.gl_model.specs.Places.{lines_at};
ghost use Rattle.gl_core.specs.Shape.{HasLine};
ghost use Rattle.gl_core.specs.Steps.{Steps, Tells};

use crate::state::State;
use crate::tree::reply_of;
use gl_base::{Errno, IrqDo, Phase};
use gl_model::Reply;

impl State {
    /// Why a call on a line is refused, first case first: `NoEnt` where no chip was made there; `Inval` where the chip has no
    /// such line.
    pub(crate) fn line_refusal(&self, place: u8, offset: u32) -> Option<Errno>
        ensures told { Tells (λ w. first_of (place_refusal place w ∷ when (nat_le (lines_at w place) offset) Inval ∷ [])) self.now result }
        ensures there { IfNone result (HasLine self.now.places place offset) }
    {
        if self.chips.phase(place) == Phase::Absent {
            return Some(Errno::NoEnt);
        }
        if self.chips.lines(place) <= offset {
            return Some(Errno::Inval);
        }
        None
    }

    /// Does something with the interrupt of a line.
    pub(crate) fn irq(&mut self, place: u8, offset: u32, what: IrqDo) -> Reply
        ensures { Steps (irq place offset what) self.old self.new result }
    {
        match self.line_refusal(place, offset) {
            Some(errno) => Reply::Refused(errno),
            None => reply_of(self.places.act(place, offset, what)),
        }
    }
}
