//! The versions of a session.

/// Which version a session has. Its header says it; each version has all of the one before it, and everything else is the
/// same in all. This project's choice.
#[derive(Clone, Copy, PartialEq, Eq)]
pub enum Version {
    /// `session 1`.
    One,
    /// `session 2`, which has the statement `accept` besides.
    Two,
    /// `session 3`, in which labels and values may have any bytes but 0.
    Three,
}
