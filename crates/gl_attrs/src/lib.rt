//! The settings that a configuration gives to each line of a request.
//!
//! The rules are those of the attributes of `struct gpio_v2_line_config` in `linux/gpio.h`: the first
//! attribute that is of the right kind and has the line's bit decides, else the configuration itself.
//! That unknown kinds of attributes and an attribute's own padding are passed over is this project's
//! choice. No call takes memory.
#![tactic(auto)]

pub mod laws;
mod resolving;

pub use resolving::{resolve, settings_of};
