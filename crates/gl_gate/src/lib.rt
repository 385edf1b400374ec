//! The gate: threads share one machine, and each of their calls takes effect at one point of one history.
//!
//! A thread makes its calls with a [`Pass`]. A call of the machine waits for its turn, and no other one.
//! Each place has a guard: passes enter and leave it without waiting, and a removal closes the place and
//! waits until nobody is inside.
#![tactic(auto)]

mod act;
mod gate;
mod guards;
pub mod laws;
mod pass;
mod passes;
mod threads;
mod turnstile;

pub use gate::Gate;
pub use pass::Pass;
