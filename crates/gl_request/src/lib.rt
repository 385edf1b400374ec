//! The requests of lines, by number: which lines a request has, how they are configured, and the edges of
//! them that wait to be read.
//!
//! The rules are those of the kernel's GPIO character device (`linux/gpio.h`,
//! `struct gpio_v2_line_request` and `struct gpio_v2_line_event`): events are numbered when the edge
//! happens, per request and per line, and a full ring drops its oldest. No call but the maker takes memory.
#![tactic(auto)]

pub mod laws;
mod row;
mod table;

pub use row::{Claim, RequestAt, RequestRow};
pub use table::Requests;
