//! The bits of a word: flags by their number, and lines of a request by their place in it.
ghost use Rattle.std.specs.Prelude.{◌≡◌, ◌<◌};
ghost use Rattle.gl_base.specs.Bits.{has_bit};

/// Whether a word has the bit of this number, counted from the lowest.
pub fn has_bit(bits: u64, bit: u32) -> bool
    requires { bit < 64 }
    ensures { result ≡ has_bit bits bit }
{
    (bits >> bit) & 1 == 1
}
