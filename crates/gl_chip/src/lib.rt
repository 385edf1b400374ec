//! The device: one machine behind the gate, a driver, and the actors that call both.
#![tactic(auto)]

mod actor;
mod board;
mod bringing;
mod calling;
mod commands;
mod driver_commands;
mod driver_operations;
mod driving;
mod files;
mod gpio;
mod guarding;
mod held;
mod inner;
mod ioctl_calls;
mod lines;
mod making;
mod numbers;
mod open_files;
mod opening;
mod ordered;
mod orders;
mod plain_commands;
mod removal;
mod removal_calls;
mod steps;
mod tree;

pub use actor::Actor;
pub use files::{ChipFd, LineFd};
pub use gpio::Gpio;
pub use held::{Answer, Handed, HeldFile, files_behind};
pub use orders::Order;
