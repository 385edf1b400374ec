//! The history as text: each entry is one line, and no two entries have the same.
#![tactic(auto)]

mod buffer_read;
mod call_read;
mod form;
mod fronts;
mod history;
pub mod laws;
mod put;
mod put_call;
mod read;
mod reply_read;
mod typed;
mod verb;
mod word_read;
mod words;

pub use history::{NoHistory, OutputHistory, read_history};
pub use put::put_entry;
pub use read::read_entry;
pub use typed::fits_entry;
pub use verb::Verb;
