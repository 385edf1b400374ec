//! The numbers of the watches, by value.
ghost use Rattle.std.specs.Prelude.{◌≡◌};

use crate::queue::QUEUE_CHANGES_MAX;

/// The limits are these numbers.
pub fn limits_by_value()
    ensures { QUEUE_CHANGES_MAX ≡ 32 }
{}
