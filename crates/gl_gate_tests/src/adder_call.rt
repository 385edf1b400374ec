//! Calls of the adder.

/// A call alone, or the first or the second of two.
#[derive(Copy, Clone, PartialEq, Eq)]
pub enum AdderCall {
    Alone,
    First,
    Second,
}
