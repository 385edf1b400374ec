//! Waiting for another call, for a bounded number of turns.

use std::hint::spin_loop;
use std::sync::atomic::{AtomicBool, Ordering};

/// How often a kept call looks whether it may go on. Then it fails.
const TURNS: u32 = 100_000_000;

/// Waits until it is set. False where that takes too many turns.
pub(crate) fn waits_for(flag: &AtomicBool) -> bool {
    for _ in 0..TURNS {
        if flag.load(Ordering::SeqCst) {
            return true;
        }
        spin_loop();
    }
    false
}
