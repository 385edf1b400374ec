//! gpiomon and gpionotify as clients of the device.
#![tactic(auto)]

mod item;
mod item_text;
pub mod laws;
mod monitor;

pub use item::Item;
pub use monitor::{Monitor, MonitorStage};
