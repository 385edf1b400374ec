//! What each operation of a client is on the device, and what it is answered.
//!
//! Three functions, one case an operation: which call of the device it is, by the file that it names; what the client gets of the
//! machine's reply; and what becomes of the client's open files. They take no memory, and know nothing of how a call is made.
//!
//! Beside them stands what whoever carries operations out needs: the slot of an operation's file, the bytes of its buffer, and the calls
//! of the machine that a call of the device is made of (`parts`).
#![tactic(auto)]

mod answers;
mod buffers;
mod changes;
mod commanding;
mod kinds;
mod operations;
pub mod parts;
pub mod results;

pub use answers::got_of;
pub use buffers::{buffer_of, zeros};
pub use changes::{answered_by, files_behind, place_named};
pub use commanding::handed_in;
pub use kinds::{Answered, Asking, Change, FileKind, FileRow, kind_of};
pub use operations::{asking_of, slot_named};
