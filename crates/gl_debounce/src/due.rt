//! A deadline of a line, and the order of deadlines.

ghost use Rattle.std.specs.Prelude.{◌≡◌, ◌<◌, nat_lt};
ghost use Rattle.gl_debounce.specs.Order.{rank};

use crate::timer::TABLE_SIZE;

/// A line that is to settle.
#[derive(Clone, Copy, PartialEq, Eq)]
pub(crate) struct Due {
    /// When it is to settle, in nanoseconds of the monotonic clock.
    pub(crate) deadline: u64,
    /// Where the line stands in the table of all lines: by place and then by offset.
    pub(crate) line: u32,
}

impl Due {
    /// Whether this line settles before another: the one with the earlier deadline, and of two with one
    /// deadline that of the lower place, and at one place that of the lower offset.
    pub(crate) fn is_before(&self, other: &Due) -> bool
        requires line { self.now.line < TABLE_SIZE }
        requires other { other.now.line < TABLE_SIZE }
        ensures { result ≡ nat_lt (rank self.now) (rank other.now) }
    {
        if self.deadline == other.deadline {
            self.line < other.line
        } else {
            self.deadline < other.deadline
        }
    }
}
