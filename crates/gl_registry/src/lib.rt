//! The places and their chips.
#![tactic(auto)]

mod registry;

pub use registry::{Chip, Registry};
