//! What is done with the interrupt of a line.

/// What a call does with the interrupt of a line (the kernel's document on GPIO drivers, locking of
/// lines as interrupts). The refusals are this project's choice.
#[derive(Clone, Copy, PartialEq, Eq)]
pub enum IrqDo {
    /// Locks the line as an interrupt and enables it.
    Lock,
    /// Unlocks the line.
    Unlock,
    /// Enables the interrupt of a locked line.
    Enable,
    /// Disables the interrupt of a locked line.
    Disable,
    /// The line has no interrupt from now on.
    Never,
}
