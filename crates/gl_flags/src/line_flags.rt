//! The set of a line's flags.

ghost use Rattle.std.specs.Prelude.{◌≡◌, ◌<◌};
ghost use Rattle.gl_base.specs.Bits.{has_bit};
ghost use Rattle.gl_flags.specs.LineFlags.{bits_of};

use bitflags::{Flag, Flags, bitflag_items};
use gl_base::flag;

/// A set of a line's flags: bit `N` of the word is the flag of that number in `gl_base::flag`.
#[derive(Clone, Copy, PartialEq, Eq)]
pub struct LineFlags(u64);

bitflag_items! {
    impl LineFlags: u64 {
        const USED = 1 << flag::USED;
        const ACTIVE_LOW = 1 << flag::ACTIVE_LOW;
        const INPUT = 1 << flag::INPUT;
        const OUTPUT = 1 << flag::OUTPUT;
        const EDGE_RISING = 1 << flag::EDGE_RISING;
        const EDGE_FALLING = 1 << flag::EDGE_FALLING;
        const OPEN_DRAIN = 1 << flag::OPEN_DRAIN;
        const OPEN_SOURCE = 1 << flag::OPEN_SOURCE;
        const BIAS_PULL_UP = 1 << flag::BIAS_PULL_UP;
        const BIAS_PULL_DOWN = 1 << flag::BIAS_PULL_DOWN;
        const BIAS_DISABLED = 1 << flag::BIAS_DISABLED;
        const EVENT_CLOCK_REALTIME = 1 << flag::EVENT_CLOCK_REALTIME;
        const EVENT_CLOCK_HTE = 1 << flag::EVENT_CLOCK_HTE;
    }
}

impl Flags for LineFlags {
    type Bits = u64;

    ghost use Rattle.std.specs.Prelude.{⊤};
    ghost use Rattle.gl_flags.specs.Table.{flag_table};

    ghost exact = { ⊤ };

    ghost table = { flag_table };

    ghost set_of = { λ flags. flags.0 };

    fn flags<'a>() -> &'a [Flag<LineFlags>] {
        LineFlags::FLAGS
    }

    fn bits(&self) -> u64 {
        self.0
    }

    fn from_bits_retain(bits: u64) -> LineFlags {
        LineFlags(bits)
    }
}

impl LineFlags {
    /// The word of the flags.
    pub fn bits(self) -> u64
        ensures { result ≡ bits_of self }
    {
        self.0
    }

    /// Whether the flag with this number, below 64, is in the set.
    pub fn has(self, bit: u32) -> bool
        requires { bit < 64 }
        ensures { result ≡ has_bit (bits_of self) bit }
    {
        gl_base::has_bit(self.0, bit)
    }
}
