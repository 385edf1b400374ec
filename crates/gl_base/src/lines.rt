//! The lines that a request names.
ghost use Rattle.std.specs.Prelude.{◌≡◌};

use crate::limits::LINES_PER_REQUEST;

/// The lines of a request, in the order of the request (`linux/gpio.h`, `struct gpio_v2_line_request`).
///
/// `count` is from 1 to 64 wherever a call takes or gives a value of this type, and the lines are the
/// first `count` of `offsets`. The others mean nothing.
#[derive(Clone, Copy, PartialEq, Eq)]
pub struct Lines {
    /// How many lines there are.
    pub count: u32,
    /// Each line's offset on its chip.
    pub offsets: [u32; LINES_PER_REQUEST as usize],
}

impl Lines {
    ghost use Rattle.gl_base.specs.Lines.{IsLineCount, offsets_of};

    /// The offsets of the lines, in the order of the request.
    pub fn offsets(&self) -> &[u32]
        requires { IsLineCount self.now.count }
        ensures { result.now ≡ offsets_of self.now }
    {
        &self.offsets[..self.count as usize]
    }
}
