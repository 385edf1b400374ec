//! The debounce timers of the lines: the level that a line has, the level that it settled at, and the
//! moment at which the first becomes the second.
//!
//! The rules are those of the kernel's software debouncing of the GPIO character device: a line's new level
//! counts once it has stayed for the debounce period. That due lines fire in order of deadline, place and
//! offset is this project's choice. No call but the maker takes memory.
#![tactic(auto)]

mod deadlines;
mod due;
mod heap;
pub mod laws;
mod rows;
mod table;
mod timer;

pub use table::Timers;
pub use timer::{Fired, Timer};
