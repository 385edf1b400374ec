//! What a call may be answered in a text.

/// What a call is answered that isn't refused.
#[derive(Clone, Copy, PartialEq, Eq)]
pub enum Form {
    /// That it was done.
    Nothing,
    /// A number.
    ANumber,
    /// That the driver is to be asked, and a number.
    AGo,
    /// A line that was found.
    AFound,
    /// A value of the tree.
    AText,
    /// What a file is ready for.
    AReady,
    /// It is always refused.
    Never,
}
