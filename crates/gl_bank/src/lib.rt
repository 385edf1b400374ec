//! The levels of a chip's lines: what drives each, and what it shows.
#![tactic(auto)]

mod bank;
mod levels;

pub use bank::Bank;
pub use levels::{Change, Levels, flip};
