//! Counts that only rise.
ghost use Rattle.std.specs.Prelude.{◌≡◌};
ghost use Rattle.gl_base.specs.Count.{counted_up};

/// One more, where a `u64` has one; at its end the count stands still.
pub fn count_up(count: u64) -> u64
    ensures { result ≡ counted_up count }
{
    count.saturating_add(1)
}
