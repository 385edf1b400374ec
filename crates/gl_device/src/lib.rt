//! A device that one actor alone calls, as one value.
#![tactic(auto)]

mod board;
mod commands;
mod device;
mod files;
mod lines;
mod removal;
mod requesting;
mod tree;

pub use device::Device;
