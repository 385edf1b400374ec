//! Where the actors of a session wait for each other before their first calls.

use std::hint::spin_loop;
use std::sync::atomic::{AtomicU64, Ordering};
use std::thread::yield_now;

/// How often an actor looks whether all have come, and lets other threads run in between.
const TURNS: u32 = 10_000;

/// How often it looks whether a second one is awake.
const SPINS: u32 = 1_000_000;

/// Where so many actors meet, so that their calls fall between each other. No clause rests on it: whoever has looked often enough begins
/// alone, and then nobody waits any more.
#[derive(Drop)]
pub struct Rendezvous {
    /// How many are to come.
    awaited: u64,
    /// How many have come; at least as many as are to come where one has begun without the others.
    come: AtomicU64,
    /// How many have seen that all have come.
    awake: AtomicU64,
}

impl Rendezvous {
    /// A place where so many actors meet, to which none has come.
    pub fn of(actors: usize) -> Rendezvous {
        Rendezvous {
            awaited: actors as u64,
            come: AtomicU64::new(0),
            awake: AtomicU64::new(0),
        }
    }

    /// Comes to the others, and waits until all are there and a second one is awake, for a bounded number of turns.
    pub fn meet(&self) {
        self.wait_for_all();
        self.wait_for_one();
    }

    /// Waits until all have come. In each turn another thread may run.
    fn wait_for_all(&self) {
        self.come.fetch_add(1, Ordering::SeqCst);
        for _ in 0..TURNS {
            if self.come.load(Ordering::SeqCst) >= self.awaited {
                return;
            }
            yield_now();
        }
        self.come.fetch_add(self.awaited, Ordering::SeqCst);
    }

    /// Waits until one more has seen that all have come. Who sees it first would else be done before the others get a processor again.
    fn wait_for_one(&self) {
        self.awake.fetch_add(1, Ordering::SeqCst);
        for _ in 0..SPINS {
            if self.awake.load(Ordering::SeqCst) >= self.awaited.min(2) {
                return;
            }
            spin_loop();
        }
    }
}
