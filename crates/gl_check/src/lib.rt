//! What a session does, by its sections and its history alone: who ran it, and by what code, is not said.
#![tactic(auto)]

mod buffers;
mod judge;
pub mod laws;
mod parts;
mod port;
mod replaying;
pub mod rows;
mod seat;
pub mod sections;
mod speech;
mod stand;
mod started;
mod suiting;
mod texts;

pub use buffers::buffer_for;
pub use port::Planned;
pub use replaying::replay;
