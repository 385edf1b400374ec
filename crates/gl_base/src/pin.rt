//! What is done with the pins of a chip.

/// What a call does with the pins of a chip (the kernel's document on GPIO drivers, pin ranges). The
/// refusals are this project's choice.
#[derive(Clone, Copy, PartialEq, Eq)]
pub enum PinDo {
    /// Maps `count` offsets from `offset` on to as many pins from `pin` on.
    Range {
        /// The first line's offset.
        offset: u32,
        /// The first pin's number.
        pin: u32,
        /// How many lines and pins there are.
        count: u32,
    },
    /// Holds the pin of this number for another function.
    Hold(u32),
    /// Drops the pin of this number, which was held.
    Release(u32),
}
