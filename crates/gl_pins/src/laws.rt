//! The numbers of the pins, by value.
ghost use Rattle.std.specs.Prelude.{◌≡◌};

use crate::pins::{PINS_MAX, RANGES_MAX};

/// The limits are these numbers.
pub fn limits_by_value()
    ensures ranges { RANGES_MAX ≡ 16 }
    ensures pins { PINS_MAX ≡ 4096 }
{}
