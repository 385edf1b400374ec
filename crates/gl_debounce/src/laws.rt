//! The law of the timers over a whole moment, as the contract of a function that does nothing.

ghost use Rattle.std.specs.Prelude.{◌≡◌, ◌*◌, ℕ, List, Option, drop, length, slice_get};
ghost use Rattle.gl_debounce.specs.declared.timer.Timer.{Timer};
ghost use Rattle.gl_debounce.specs.Fire.{after_first, fires};

use gl_base::{LINES_MAX, PLACES};

/// What settles at a moment settles line by line: once the first has, the others are left, in their order.
pub fn lines_fire_one_by_one()
    ensures { (now : ℕ) (lines : List (Option Timer)) → length lines ≡ PLACES * LINES_MAX
        → fires now (after_first (slice_get (fires now lines) 0) lines) ≡ drop 1 (fires now lines) }
{}
