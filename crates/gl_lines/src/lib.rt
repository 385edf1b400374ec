//! What the tools share: how they find their lines and request them, the structures that they hand in, and the texts
//! that they all print.
#![tactic(auto)]

mod bytes;
mod finder;
mod found_line;
pub mod laws;
mod texts;
mod words;

pub use bytes::{info_sent, values_sent};
pub use finder::{Finder, FinderStage};
pub use found_line::{FoundLine, place_of};
pub use texts::{failed_line, put_quoted};
pub use words::{path_of_name, path_of_number};
