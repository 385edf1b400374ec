//! What a client of the device is: it asks for one operation at a time, gets its result, and prints texts.
#![tactic(auto)]

mod next;

pub use next::Next;
