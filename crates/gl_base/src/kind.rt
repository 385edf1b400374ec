//! Whether a chip is simulated.

/// What stands behind a chip.
#[derive(Clone, Copy, PartialEq, Eq)]
pub enum Kind {
    /// A chip of gpio-sim: its pulls are written by the user.
    Simulated,
    /// A chip behind a driver, which reports the levels of its lines by interrupts.
    Remote,
}
