//! The core: what is kept of a world of the machine, so that the code can answer the machine's calls.
//!
//! What the machine is, its calls and its worlds, stands in `gl_model`.
#![tactic(auto)]

mod chips;
mod chosen;
mod claiming;
mod clock;
mod commanded;
mod commands;
mod configuring;
mod edges;
pub mod entries;
mod finding;
pub mod fits;
mod history;
mod information;
mod interrupts;
mod ioctl;
pub mod laws;
mod live;
mod machine;
mod notify;
mod open_files;
mod opening;
mod pins;
mod places;
mod prepared_bank;
mod pulls;
mod reading;
mod reading_changes;
mod removal;
mod state;
mod step;
mod tree;
mod values;

pub use gl_model::{Asked, Call, Gift, Origin, Part, Place, Reply};
pub use machine::Core;
