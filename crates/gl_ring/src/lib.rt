//! The ring of the edges of a request that wait to be read.
//!
//! A request's events wait in a ring of a fixed capacity. An event that comes while the ring is full drops
//! the oldest, as the kernel's GPIO character device does, so that the numbers that a reader misses are
//! those of the oldest events.
#![tactic(auto)]

pub mod laws;
mod ring;

pub use ring::{EdgeRing, RING_EVENTS_MAX};
