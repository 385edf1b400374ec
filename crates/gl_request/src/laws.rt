//! The events of a request are its edges, in order, numbered from 1 when they happen. The laws stand as the
//! contracts of functions that do nothing, over the definitions that the table's own calls meet.

ghost use Rattle.std.specs.Prelude.{◌≡◌, ◌+◌, ◌-◌, ◌<◌, ◌≤◌, ℕ, Bool, List, [], ◌∷◌, ◌++◌, length, max, min};
ghost use Rattle.circular_buffer.specs.Buffer.{Buffer, buffer};
ghost use Rattle.gl_base.specs.Lines.{IsLineCount};
ghost use Rattle.gl_uapi.specs.declared.line_events.Event.{Event};
ghost use Rattle.gl_request.specs.declared.row.Claim.{Claim};
ghost use Rattle.gl_request.specs.declared.row.RequestRow.{RequestRow};
ghost use Rattle.gl_ring.specs.Edges.{Edge, HasDifferentLines, event_behind, events_of};
ghost use Rattle.gl_request.specs.Numbering.{KeepsEdges, edge_of};
ghost use Rattle.gl_request.specs.Request.{numbered, read_from, row_of, with_event};

/// A claim begins without edges.
pub fn claim_has_no_edges()
    ensures { (claim : Claim) (capacity : ℕ) → IsLineCount claim.lines.count → KeepsEdges (row_of claim (buffer [] capacity)) [] 0 }
{}

/// One edge more is one event more, behind the others.
pub fn events_are_the_edges()
    ensures { (edges : List Edge) (edge : Edge) → events_of (edges ++ edge ∷ []) ≡ events_of edges ++ event_behind edges edge ∷ [] }
{}

/// The event that the table numbers is the edge's, behind all edges before it, and the request keeps it:
/// all 64 line counts are told.
/// Of more events than its ring has room for, the oldest no longer wait.
pub fn edge_is_kept()
    ensures event { (row : RequestRow) (edges : List Edge) (next i : ℕ) (rising : Bool) (timestamp : ℕ) → KeepsEdges row edges next
        → i < row.lines.count → numbered i rising timestamp row ≡ event_behind edges (edge_of i rising timestamp row) }
    ensures row { (row : RequestRow) (edges : List Edge) (next i : ℕ) (rising : Bool) (timestamp : ℕ) → KeepsEdges row edges next
        → HasDifferentLines row.lines → i < row.lines.count
        → KeepsEdges (with_event i rising timestamp row) (edges ++ edge_of i rising timestamp row ∷ [])
        (max next (length edges + 1 - row.ring.capacity)) }
{}

/// A read takes the first events that wait, and the request keeps the others.
pub fn read_is_kept()
    ensures { (row : RequestRow) (edges : List Edge) (next max : ℕ) → KeepsEdges row edges next
        → KeepsEdges (read_from max row) edges (next + min max (length edges - next)) }
{}
