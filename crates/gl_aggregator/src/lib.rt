//! An aggregator, as the kernel's gpio-aggregator: a driver of chips whose lines are those of requests at other places. What it is asked, it asks the
//! targets' chips, by calls of its own in the one history; and what is asked of all other chips, it asks the driver behind it.
#![tactic(auto)]

mod commands;
mod driver;
mod flag_words;
pub mod laws;
mod maps;
mod port;
mod routes;
mod tally;
mod visiting;
mod words;

pub use driver::AggDriver;
pub use port::AggPort;
