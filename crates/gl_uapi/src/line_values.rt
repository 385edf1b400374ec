//! The values of a request's lines.

ghost use Rattle.std.specs.Prelude.{◌≡◌, ◌<◌, ◌≤◌, ◌↔◌, ◌++◌, IsSome, IfSome, length, take, drop};
ghost use Rattle.gl_uapi.specs.Fields.{number_at};
ghost use Rattle.gl_uapi.specs.LineValues.{values_bytes, SpellsValues};

use crate::fields::{put_u64, u64_at};
use crate::layout::{LINE_VALUES_SIZE, VALUES_BITS, VALUES_MASK};
use std::marker::Model;

/// The values of a request's lines (`struct gpio_v2_line_values`), 16 bytes: contracts see the bytes.
#[derive(Drop)]
pub struct ValuesRef<'a> {
    bytes: &'a [u8],
}

impl<'a> Model for ValuesRef<'a> {
    ghost use Rattle.std.specs.Prelude.{◌≡◌, List, ℕ, length};
    ghost use Rattle.gl_uapi.specs.declared.layout.TheConstants.{LINE_VALUES_SIZE};

    ghost Value = { List ℕ };

    ghost view = { λ v. v.bytes.now };

    ghost invariant = { λ v. length v.bytes.now ≡ LINE_VALUES_SIZE };
}

impl<'a> ValuesRef<'a> {
    /// The view of the first 16 bytes, or None where there are fewer.
    pub fn of(bytes: &'a [u8]) -> Option<ValuesRef<'a>>
        ensures long { IsSome result ↔ (LINE_VALUES_SIZE ≤ length bytes.now) }
        ensures first { IfSome result (λ view. view ≡ take LINE_VALUES_SIZE bytes.now) }
    {
        if bytes.len() < LINE_VALUES_SIZE {
            return None;
        }
        Some(ValuesRef {
            bytes: &bytes[..LINE_VALUES_SIZE],
        })
    }

    /// The values, a bit a line: bit `i` is the line at position `i` of the request.
    pub fn bits(&self) -> u64
        ensures { result ≡ number_at 8 VALUES_BITS self.now }
    {
        u64_at(self.bytes, VALUES_BITS)
    }

    /// The lines that the values speak of, a bit a line.
    pub fn mask(&self) -> u64
        ensures { result ≡ number_at 8 VALUES_MASK self.now }
    {
        u64_at(self.bytes, VALUES_MASK)
    }
}

/// Writes the values over the first 16 bytes, and leaves the rest.
pub fn write_values(out: &mut [u8], bits: u64, mask: u64)
    requires { LINE_VALUES_SIZE ≤ length out.old }
    ensures spelled { SpellsValues (take LINE_VALUES_SIZE out.new) bits mask }
    ensures bytes { out.new ≡ values_bytes bits mask ++ drop LINE_VALUES_SIZE out.old }
{
    put_u64(out, VALUES_BITS, bits);
    put_u64(out, VALUES_MASK, mask);
}
