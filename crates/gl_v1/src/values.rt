//! Values of lines: a byte a line in the first structures, a bit a line in those of v2.

ghost use Rattle.std.specs.Prelude.{◌≡◌, ◌+◌, ◌<◌, ◌≤◌, ◌^◌, ◌==◌, if◌then◌else◌, length};
ghost use Rattle.gl_uapi.specs.Fields.{overwritten};
ghost use Rattle.gl_v1.specs.Values.{bits_below, bits_from, value_byte, value_bytes};

use crate::layout::V1_VALUES_SIZE;

/// A word with the bits below `n`.
pub(crate) fn bits_below(n: u32) -> u64
    ensures { result ≡ bits_below n }
{
    if n < 64 { (1 << n) - 1 } else { u64::MAX }
}

/// The bit of one byte that isn't 0.
fn bit_of(byte: u8, number: u32) -> u64
    requires { number < 64 }
    ensures { result ≡ (if byte == 0 then 0 else 2 ^ number) }
{
    if byte == 0 { 0 } else { 1 << number }
}

/// The word whose bits are set just where these bytes, at most 64, aren't 0.
#[tactic(auto, using(crate::proofs::Bits::next_bit, crate::proofs::Bits::bits_fit))]
pub(crate) fn bits_of(bytes: &[u8]) -> u64
    requires { length bytes.now ≤ 64 }
    ensures { result ≡ bits_from 0 bytes.now }
{
    let mut bits = 0;
    for i in 0..bytes.len() {
        bits += bit_of(bytes[i], i as u32);
    }
    bits
}

/// The byte of line `i`, of so many lines: its bit, and 0 past them.
fn value_byte(bits: u64, lines: u32, i: u32) -> u8
    requires { i < 64 }
    ensures { result ≡ value_byte bits lines i }
{
    if i < lines {
        u8::from(gl_base::has_bit(bits, i))
    } else {
        0
    }
}

/// Writes the bytes of so many lines, and zeros for those past them, over the first 64 bytes.
pub(crate) fn put_values(buf: &mut [u8], bits: u64, lines: u32)
    requires { V1_VALUES_SIZE ≤ length buf.old }
    ensures { buf.new ≡ overwritten 0 (value_bytes bits lines 0 V1_VALUES_SIZE) buf.old }
{
    for i in 0..V1_VALUES_SIZE {
        buf[i] = value_byte(bits, lines, i as u32);
    }
}
