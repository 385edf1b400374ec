//! The structures of the GPIO character device's first uAPI, and what they become in uAPI v2 (`linux/gpio.h`).
//!
//! Each call of the first uAPI becomes one call of v2, whose answer goes back into the old structure. So the machine
//! that answers v2 answers both. Numbers are little-endian, and an event has the length that a 64-bit machine gives it
//! (this project's choices). No call takes memory, and each is safe on any bytes.
#![tactic(auto)]

mod commands;
pub mod flags;
pub mod laws;
pub mod layout;
pub mod numbers;
mod receiving;
mod sending;
pub mod values;
mod words;

pub use commands::{CommandV1, KindV1, LINE_EVENT, size_of};
pub use receiving::{events, receive};
pub use sending::{Sent, send};
pub use words::{command_number, makes_file};
