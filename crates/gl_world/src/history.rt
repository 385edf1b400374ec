//! Entries of a history.

use crate::machine::Machine;

/// One call in the history of a machine: who made it, what it was, and what it was answered.
#[derive(Drop)]
pub struct Entry<M: Machine> {
    /// The number of the pass that made the call.
    pub actor: u8,
    /// The call.
    pub call: M::Call,
    /// What the machine answered.
    pub reply: M::Reply,
}
