//! How the lines of a request are configured.

use crate::limits::LINES_PER_REQUEST;

/// How one line is configured.
#[derive(Clone, Copy, PartialEq, Eq)]
pub struct Settings {
    /// The line's flags (`linux/gpio.h`, `GPIO_V2_LINE_FLAG_*`).
    pub flags: u64,
    /// The logical value of an output.
    pub value: bool,
    /// The debounce period in microseconds; 0 means that the line isn't debounced.
    pub debounce_us: u32,
}

/// How each line of a request is configured, in the order of the request.
///
/// `count` is from 1 to 64 wherever a call takes or gives a value of this type, and the settings are the
/// first `count` of `lines`. The others mean nothing.
#[derive(Clone, Copy, PartialEq, Eq)]
pub struct Resolved {
    /// How many lines there are.
    pub count: u32,
    /// Each line's settings.
    pub lines: [Settings; LINES_PER_REQUEST as usize],
}
