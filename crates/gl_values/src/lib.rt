//! gpiodetect, gpioinfo, gpioget and gpioset as clients of the device.
#![tactic(auto)]

mod chip;
mod client;
mod detect;
mod get;
mod get_text;
mod info;
mod info_text;
pub mod laws;
mod set;

pub use chip::Chip;
pub use client::Client;
pub use detect::{Detect, DetectStage};
pub use get::{Get, GetStage};
pub use info::{InfoStage, InfoTool};
pub use set::{Hold, Set, SetStage};
