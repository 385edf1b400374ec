//! Where an actor stands in the midst of a history.

use gl_base::Do;
use gl_model::Call;

/// Where an actor stands.
#[derive(Clone, Copy)]
pub enum Stand {
    /// At its end.
    Ended,
    /// Before the first entry of its next call of the device.
    Before {
        /// The operation.
        what: Do,
        /// The first entry's call, where the guard is open.
        first: Call,
    },
    /// Between the two entries of a call of the device.
    Between {
        /// The operation.
        what: Do,
        /// The first entry's call.
        first: Call,
    },
}
