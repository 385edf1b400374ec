//! What passes know.

use gl_world::{Entry, Machine};
use std::collections::LinkedList;

/// A pass that was joined into another one, with its own entries. No value of this type is made: it
/// stands in contracts alone.
pub struct Joined<M: Machine> {
    /// The number of the pass.
    pub number: u64,
    /// Its own entries, in order.
    pub mine: LinkedList<Entry<M>>,
}

/// What a pass knows. No value of this type is made: it stands in contracts alone, and its numbers have
/// no bound there.
pub struct View<M: Machine> {
    /// The pass's number. The first pass of a gate has 0.
    pub number: u64,
    /// How many entries the history takes before it is full.
    pub room: u64,
    /// The beginning of the history that the pass has seen.
    pub seen: LinkedList<Entry<M>>,
    /// When it last took another pass in, the shorter of what the two had seen.
    pub had_seen: LinkedList<Entry<M>>,
    /// The pass's own entries, in order.
    pub mine: LinkedList<Entry<M>>,
    /// The ticket, counted from the gate's first ticket on.
    pub ticket: Option<u64>,
    /// The pass has the turn.
    pub turn: bool,
    /// How many turns it passed on without an entry.
    pub passed: u64,
    /// The passes that were joined into it, directly or through another.
    pub joined: LinkedList<Joined<M>>,
    /// In the first pass, how many passes were made.
    pub made: u64,
    /// The places that it is inside.
    pub inside: LinkedList<u64>,
    /// The places whose guard it added itself to and found closed.
    pub knocking: LinkedList<u64>,
    /// The places that it knows closed.
    pub closed: LinkedList<u64>,
    /// The places that it knows drained.
    pub drained: LinkedList<u64>,
    /// How many passes its last look at a guard found there.
    pub counted: u64,
    /// It was joined into another pass.
    pub spent: bool,
}
