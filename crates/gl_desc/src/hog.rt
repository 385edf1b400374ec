//! Lines that the board itself holds.

use gl_base::Name;

/// How a hogged line is held (gpio-sim, `hog/direction`).
#[derive(Clone, Copy, PartialEq, Eq)]
pub enum HogWay {
    /// `input`
    Input,
    /// `output-high`
    High,
    /// `output-low`
    Low,
}

/// A line that the board itself holds (gpio-sim, `hog`).
#[derive(Clone, Copy, PartialEq, Eq)]
pub struct Hog {
    /// The line's offset on its chip.
    pub offset: u32,
    /// The consumer that the line shows.
    pub name: Name,
    /// How it is held.
    pub way: HogWay,
}
