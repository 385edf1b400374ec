//! Memory that a call brings along.

ghost use Rattle.std.specs.Prelude.{◌≡◌, None};

use crate::asked::Asked;
use gl_base::Errno;
use gl_ring::EdgeRing;
use gl_watch::InfoQueue;

/// Memory that a call brings along, since a step takes none: a ring for the events of a request, and a queue
/// for the changes that wait for a chip file. A request of lines brings besides what its bytes ask for, or why they have it refused: so
/// they are read once.
#[derive(Drop)]
pub struct Gift {
    /// An empty ring, for a request of lines.
    pub ring: Option<EdgeRing>,
    /// An empty queue, for the opening of a chip.
    pub queue: Option<InfoQueue>,
    /// What a request of lines asks for, or why its bytes alone have it refused. It stays in the gift.
    pub asked: Option<Result<Asked, Errno>>,
}

impl Gift {
    /// A gift with nothing in it, as most calls bring.
    pub fn nothing() -> Gift
        ensures ring { result.ring ≡ None }
        ensures queue { result.queue ≡ None }
        ensures asked { result.asked ≡ None }
    {
        Gift {
            ring: None,
            queue: None,
            asked: None,
        }
    }
}
