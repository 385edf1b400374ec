//! What a ring is worth over a whole run: the laws of its pushes and reads. Each stands as the contract of
//! a function that does nothing, and cites the definitions that the ring's own calls meet.

ghost use Rattle.std.specs.Prelude.{◌≡◌, ◌+◌, ◌-◌, ◌≤◌, ◌↔◌, ℕ, List, [], length, map, slice_index_or};
ghost use Rattle.circular_buffer.specs.Buffer.{buffer};
ghost use Rattle.gl_uapi.specs.declared.line_events.Event.{Event};
ghost use Rattle.gl_ring.specs.Waiting.{Past, left, pushed, read_by, waiting, with_item};
ghost use Rattle.gl_ring.specs.Run.{IsMissing, IsSubsequence, Turn, WasOvertaken, came, given, numbers_read};

use crate::ring::RING_EVENTS_MAX;

/// A ring holds what waits of all that has come to it: the last events, from the first that was neither
/// read nor dropped.
pub fn ring_holds_the_last()
    ensures push { (capacity : ℕ) (event : Event) (past : Past Event) → past.next ≤ length past.all
        → pushed event (buffer (waiting past) capacity) ≡ buffer (waiting (with_item capacity event past)) capacity }
    ensures read { (capacity max : ℕ) (past : Past Event)
        → left max (buffer (waiting past) capacity) ≡ buffer (waiting (read_by max past)) capacity }
    ensures within { (capacity : ℕ) (event : Event) (past : Past Event) → past.next ≤ length past.all
        → (with_item capacity event past).next ≤ length (with_item capacity event past).all }
{}

/// What all reads gave, joined in order, are some of the events that came, in their order.
pub fn reads_are_in_order()
    ensures { (capacity : ℕ) (turns : List (Turn Event))
        → IsSubsequence (given (buffer [] capacity) turns) (came turns) }
{}

/// The events that were read are those with the numbers that were read.
pub fn numbers_name_the_events()
    ensures { (capacity : ℕ) (turns : List (Turn Event)) (d : Event)
        → given (buffer [] capacity) turns ≡ map (λ k. slice_index_or (came turns) (k - 1) d) (numbers_read capacity turns) }
{}

/// The event with number k, of those that came, is missing exactly where that with number k plus capacity
/// came before it was read.
pub fn gaps_are_the_oldest()
    ensures { (capacity k : ℕ) (turns : List (Turn Event)) → 1 ≤ k → k ≤ length (came turns)
        → (IsMissing capacity turns k ↔ WasOvertaken capacity turns k) }
{}

/// The limits are these numbers.
pub fn limits_by_value()
    ensures { RING_EVENTS_MAX ≡ 1024 }
{}
