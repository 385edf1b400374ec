//! Maps of lines: a chip whose lines are those of requests at other places.

use gl_base::Lines;

/// A request at a place, with the lines that it holds there.
#[derive(Clone, Copy, PartialEq, Eq)]
pub struct Target {
    /// The place of its chip.
    pub place: u8,
    /// The number of the request.
    pub fd: u32,
    /// Its lines, of which there are 1 to 64.
    pub lines: Lines,
}

/// What the lines of the chip at a place stand for: those of its targets, joined in order. It has 1 to 4 targets, the first
/// `count` of these.
#[derive(Clone, Copy, PartialEq, Eq)]
pub struct Map {
    /// The place of the chip.
    pub place: u8,
    /// How many targets it has.
    pub count: u32,
    /// The targets; those past the count mean nothing.
    pub targets: [Target; 4],
}
