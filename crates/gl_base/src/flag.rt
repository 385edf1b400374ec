//! The numbers of a line's flags: bit `N` of the word of flags (`linux/gpio.h`, `enum gpio_v2_line_flag`).

/// The line is in use. It is told of a line, and never asked for.
pub const USED: u32 = 0;

/// The logical value is the physical level inverted.
pub const ACTIVE_LOW: u32 = 1;

/// The line is an input.
pub const INPUT: u32 = 2;

/// The line is an output.
pub const OUTPUT: u32 = 3;

/// The line's rising edges are events.
pub const EDGE_RISING: u32 = 4;

/// The line's falling edges are events.
pub const EDGE_FALLING: u32 = 5;

/// An output that is driven to 0 alone.
pub const OPEN_DRAIN: u32 = 6;

/// An output that is driven to 1 alone.
pub const OPEN_SOURCE: u32 = 7;

/// The line is pulled up.
pub const BIAS_PULL_UP: u32 = 8;

/// The line is pulled down.
pub const BIAS_PULL_DOWN: u32 = 9;

/// The line has no bias.
pub const BIAS_DISABLED: u32 = 10;

/// The line's events have the real clock's time.
pub const EVENT_CLOCK_REALTIME: u32 = 11;

/// The line's events have a hardware timestamp.
pub const EVENT_CLOCK_HTE: u32 = 12;
