//! What a driver is asked.

use crate::lines::Lines;
use crate::settings::Resolved;

/// What a driver is asked to do with lines of its chip. Bit `i` of a mask and of bits is the `i`-th of the
/// lines, counted from 0. These are the calls `get_multiple`, `set_multiple` and `set_config` of the
/// kernel's GPIO drivers.
#[derive(Clone, Copy, PartialEq, Eq)]
pub enum Op {
    /// Tell the levels of lines. The answer is their bits.
    Get {
        /// The lines.
        lines: Lines,
    },
    /// Drive those of the lines that the mask names.
    Set {
        /// The lines.
        lines: Lines,
        /// Which of them.
        mask: u64,
        /// Their values.
        bits: u64,
    },
    /// Configure lines.
    Apply {
        /// The lines.
        lines: Lines,
        /// The settings of each of them, as many as there are lines.
        settings: Resolved,
    },
}
