//! The arguments of the six tools.
#![tactic(auto)]

mod cuts;
mod items;
pub mod laws;
mod look_ups;
mod names;
mod tool;
mod values;

pub use items::ArgFault;
pub use names::{OptionName, ToolName};
pub use tool::{Opts, Tool, read_tool};
