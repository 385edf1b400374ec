//! How far a chip has come.

/// The phase of a place. It only goes forward, in the order in which the variants stand here.
///
/// The phases are this project's choice. They follow a chip of the kernel's GPIO drivers from its
/// registration to the end of its removal.
#[derive(Clone, Copy, PartialEq, Eq)]
pub enum Phase {
    /// No chip was made at this place yet.
    Absent,
    /// The chip is there.
    Up,
    /// The chip's removal has begun.
    Leaving,
    /// The chip was removed.
    Gone,
}
