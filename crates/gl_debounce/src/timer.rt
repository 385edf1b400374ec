//! One line's timer.

ghost use Rattle.std.specs.Prelude.{◌≡◌, ◌<◌};
ghost use Rattle.gl_debounce.specs.Fire.{fired_at};
ghost use Rattle.gl_debounce.specs.Timer.{let_go, settled_at_raw, still, with_raw, without_deadline};

use gl_base::{LINES_MAX, PLACES};

/// How many lines there are: each place has room for `LINES_MAX`.
pub(crate) const TABLE_SIZE: u32 = PLACES as u32 * LINES_MAX;

/// What is kept of a line that is debounced.
#[derive(Clone, Copy, PartialEq, Eq)]
pub struct Timer {
    /// The line's level.
    pub raw: bool,
    /// The level that it settled at last.
    pub settled: bool,
    /// Whether the driver debounces the line, so that its levels count at once.
    pub hard: bool,
    /// When its level is to settle, in nanoseconds of the monotonic clock, if it isn't settled.
    pub deadline: Option<u64>,
}

/// The levels of a line that is debounced: its timer but for the deadline.
#[derive(Clone, Copy, PartialEq, Eq)]
pub(crate) struct TimerLevels {
    /// The line's level.
    pub(crate) raw: bool,
    /// The level that it settled at last.
    pub(crate) settled: bool,
    /// Whether the driver debounces the line.
    pub(crate) hard: bool,
}

/// A line whose level has settled.
#[derive(Clone, Copy, PartialEq, Eq)]
pub struct Fired {
    /// The place of its chip.
    pub place: u8,
    /// Its offset on the chip.
    pub offset: u32,
    /// When it was to settle, in nanoseconds of the monotonic clock.
    pub deadline: u64,
    /// The level that it settled at.
    pub level: bool,
    /// Whether this is another level than that which it settled at before.
    pub changed: bool,
}

impl Timer {
    /// The timer of a line that has settled at this level, and that is hard, or isn't.
    pub(crate) fn still(level: bool, hard: bool) -> Timer
        ensures { result ≡ still level hard }
    {
        Timer {
            raw: level,
            settled: level,
            hard,
            deadline: None,
        }
    }

    /// The timer without its deadline.
    pub(crate) fn without_deadline(self) -> Timer
        ensures { result ≡ without_deadline self }
    {
        Timer {
            deadline: None,
            ..self
        }
    }

    /// The timer of a line that is let go of.
    pub(crate) fn let_go(self) -> Timer
        ensures { result ≡ let_go self }
    {
        Timer {
            hard: false,
            deadline: None,
            ..self
        }
    }

    /// The timer after an edge to this level.
    pub(crate) fn with_raw(self, level: bool, deadline: u64) -> Timer
        ensures { result ≡ with_raw level deadline self }
    {
        Timer {
            raw: level,
            deadline: Some(deadline),
            ..self
        }
    }

    /// The timer whose level has settled.
    pub(crate) fn settled_at_raw(self) -> Timer
        ensures { result ≡ settled_at_raw self }
    {
        Timer::still(self.raw, self.hard)
    }
}

/// The line with number `n`, if its deadline has come.
pub(crate) fn fired_at(now: u64, n: u32, timer: Option<Timer>) -> Option<Fired>
    requires { n < TABLE_SIZE }
    ensures { result ≡ fired_at now n timer }
{
    match timer {
        None => None,
        Some(timer) => match timer.deadline {
            None => None,
            Some(deadline) => {
                if deadline <= now {
                    Some(Fired {
                        place: (n / LINES_MAX) as u8,
                        offset: n % LINES_MAX,
                        deadline,
                        level: timer.raw,
                        changed: timer.raw != timer.settled,
                    })
                } else {
                    None
                }
            }
        },
    }
}
