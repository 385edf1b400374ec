//! Who has each line of a chip.
#![tactic(auto)]

mod desc;
mod descs;
mod hog;

pub use desc::{Desc, Holder, LineFault};
pub use descs::Descs;
pub use hog::{Hog, HogWay};
