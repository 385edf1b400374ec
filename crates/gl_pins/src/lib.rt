//! The pins of a chip: which line each maps to, and which are held for another function.
#![tactic(auto)]

pub mod laws;
mod pins;
mod range;

pub use pins::{PINS_MAX, Pins, RANGES_MAX};
pub use range::PinRange;
