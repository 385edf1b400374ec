//! Whether flags go together.

ghost use Rattle.std.specs.Prelude.{◌≡◌};
ghost use Rattle.gl_base.specs.Refusals.{answer};
ghost use Rattle.gl_flags.specs.FlagFault.{flag_fault, has_bias, has_drive, has_edge, has_two_biases, has_unknown};
ghost use Rattle.gl_flags.specs.LineFlags.{bits_of, flags_of};

use crate::LineFlags;
use bitflags::Flags;
use gl_base::{Errno, flag};

/// The flags of this word, or why they don't go together: the first case that holds, in this order.
///
/// - `Inval`: the word has an unknown flag, or `USED`.
/// - `OpNotSupp`: `EVENT_CLOCK_HTE`.
/// - `Inval`: `INPUT` with `OUTPUT`; an edge without `INPUT`; `OPEN_DRAIN` with `OPEN_SOURCE`; a drive
///   without `OUTPUT`; a bias without a direction; two biases.
pub fn check(bits: u64) -> Result<LineFlags, Errno>
    ensures { result ≡ answer (flag_fault bits) (flags_of bits) }
{
    let flags = LineFlags::from_bits_retain(bits);
    match fault(flags) {
        Some(errno) => Err(errno),
        None => Ok(flags),
    }
}

/// Why flags don't go together.
fn fault(flags: LineFlags) -> Option<Errno>
    ensures { result ≡ flag_fault (bits_of flags) }
{
    let input = flags.has(flag::INPUT);
    let output = flags.has(flag::OUTPUT);
    if is_unknown(flags) || flags.has(flag::USED) {
        return Some(Errno::Inval);
    }
    if flags.has(flag::EVENT_CLOCK_HTE) {
        return Some(Errno::OpNotSupp);
    }
    if input && output {
        return Some(Errno::Inval);
    }
    if is_edge(flags) && !input {
        return Some(Errno::Inval);
    }
    if flags.has(flag::OPEN_DRAIN) && flags.has(flag::OPEN_SOURCE) {
        return Some(Errno::Inval);
    }
    if is_driven(flags) && !output {
        return Some(Errno::Inval);
    }
    if is_biased(flags) && !input && !output {
        return Some(Errno::Inval);
    }
    if is_biased_twice(flags) {
        return Some(Errno::Inval);
    }
    None
}

/// Whether there is a flag that nobody knows.
fn is_unknown(flags: LineFlags) -> bool
    ensures { result ≡ has_unknown (bits_of flags) }
{
    LineFlags::from_bits(flags.bits()).is_none()
}

/// Whether an edge is asked for.
fn is_edge(flags: LineFlags) -> bool
    ensures { result ≡ has_edge (bits_of flags) }
{
    flags.has(flag::EDGE_RISING) || flags.has(flag::EDGE_FALLING)
}

/// Whether an output is to be driven one way alone.
fn is_driven(flags: LineFlags) -> bool
    ensures { result ≡ has_drive (bits_of flags) }
{
    flags.has(flag::OPEN_DRAIN) || flags.has(flag::OPEN_SOURCE)
}

/// Whether a bias is asked for.
fn is_biased(flags: LineFlags) -> bool
    ensures { result ≡ has_bias (bits_of flags) }
{
    flags.has(flag::BIAS_PULL_UP)
        || flags.has(flag::BIAS_PULL_DOWN)
        || flags.has(flag::BIAS_DISABLED)
}

/// Whether two biases are asked for.
fn is_biased_twice(flags: LineFlags) -> bool
    ensures { result ≡ has_two_biases (bits_of flags) }
{
    let up = flags.has(flag::BIAS_PULL_UP);
    let down = flags.has(flag::BIAS_PULL_DOWN);
    let disabled = flags.has(flag::BIAS_DISABLED);
    (up && down) || (up && disabled) || (down && disabled)
}
