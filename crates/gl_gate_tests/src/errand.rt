//! Calls on the house.

/// What a pass does at the house.
#[derive(Copy, Clone, PartialEq, Eq)]
pub enum Errand {
    /// Works inside.
    Work,
    /// Begins the removal.
    Remove,
    /// Ends the removal.
    Finish,
    /// Found the house closed.
    TurnedAway,
}

/// What the house answers.
#[derive(Copy, Clone, PartialEq, Eq)]
pub enum Answer {
    Done,
    Busy,
    NoDev,
}
