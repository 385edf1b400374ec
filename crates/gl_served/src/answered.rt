//! What a line is answered.

use gl_script::Spot;

/// What a line is answered.
#[derive(Clone, Copy, PartialEq, Eq)]
pub enum Answer {
    /// It is accepted, and prints a text.
    Text,
    /// It is refused by this fault, and counts as not given.
    Refused(Spot),
}
