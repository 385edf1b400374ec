//! The open chip files: the lines that each one watches, and the changes that wait for it.
//!
//! A change of a line's information goes to each file that watches the line, as the kernel's GPIO character
//! device does it (`GPIO_V2_GET_LINEINFO_WATCH_IOCTL`). A file has room for 32 changes.
#![tactic(auto)]

mod file;
pub mod laws;
mod lines;
mod queue;
mod table;
mod watches;

pub use file::{ChipFile, FileAt};
pub use lines::WatchedLines;
pub use queue::{InfoQueue, QUEUE_CHANGES_MAX};
pub use watches::Watches;
