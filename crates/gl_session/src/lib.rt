//! A session: from the bytes read to the bytes written and the status.
#![tactic(auto)]

mod check;
pub mod fork;
pub mod joining;
mod judging;
pub mod laws;
mod load;
mod one_actor;
pub mod output;
pub mod play;
pub mod player;
mod ports;
pub mod rendezvous;
pub mod rows;
mod session;
pub mod several;
mod status;
mod streams;
mod teaching;
mod text;
mod verdict;
pub mod worker;

pub use judging::{CHECK_MAX, judge};
pub use session::run;
pub use status::Status;
pub use verdict::Verdict;
