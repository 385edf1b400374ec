//! The lines that a board itself holds.
#![tactic(auto)]

mod hogs;

pub use hogs::apply;
