//! Changes of watched lines.

ghost use Rattle.std.specs.Prelude.{◌≡◌};
ghost use Rattle.gl_base.specs.Lines.{IsLineCount, offsets_of};
ghost use Rattle.gl_base.specs.Rows.{Each};
ghost use Rattle.gl_model.specs.Notify.{notify, notify_each};
ghost use Rattle.gl_core.specs.Shape.{HasLine};
ghost use Rattle.gl_core.specs.Steps.{Follows};

use crate::information::info_of;
use crate::state::State;
use gl_base::Lines;
use gl_uapi::Changed;

impl State {
    /// A change of a line goes to each file that watches the line.
    pub(crate) fn notify(&mut self, place: u8, offset: u32, kind: u32)
        requires { HasLine self.old.places place offset }
        ensures follows { Follows (notify place offset kind) self.old self.new }
        ensures rest { self.new ≡ record self.old { files = self.new.files } }
    {
        let changed = Changed {
            info: info_of(self.places.at(place), offset),
            timestamp: self.mono,
            kind,
        };
        self.files.notify(place, &changed);
    }

    /// The same change of each line of a request, in their order.
    pub(crate) fn notify_each(&mut self, place: u8, lines: &Lines, kind: u32)
        requires count { IsLineCount lines.now.count }
        requires lines { Each (HasLine self.old.places place) (offsets_of lines.now) }
        ensures follows { Follows (notify_each place (offsets_of lines.now) kind) self.old self.new }
        ensures rest { self.new ≡ record self.old { files = self.new.files } }
    {
        for offset in lines.offsets() {
            self.notify(place, *offset, kind);
        }
    }
}
