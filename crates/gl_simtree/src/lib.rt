//! The configuration tree of gpio-sim.
#![tactic(auto)]

mod bank_rows;
mod cut;
mod edit;
mod form;
pub mod laws;
mod limits;
pub mod node;
pub mod parse;
mod plan;
pub mod row;
mod search;
pub mod tree;
mod value;

pub use limits::DIRECTORIES_MAX;
pub use plan::BankPlan;
pub use tree::Tree;
