//! What the program's words ask for.
#![tactic(auto)]

mod laws;
mod task;

pub use laws::loads_are_within;
pub use task::{Task, WordsFault, read_words};
