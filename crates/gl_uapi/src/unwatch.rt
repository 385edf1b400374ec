//! The structure of GET_LINEINFO_UNWATCH.

ghost use Rattle.std.specs.Prelude.{◌≡◌, ◌≤◌, ◌↔◌, IsSome, IfSome, length, take};
ghost use Rattle.gl_uapi.specs.Fields.{number_at};

use crate::fields::u32_at;
use crate::layout::{UNWATCH_OFFSET, UNWATCH_SIZE};
use std::marker::Model;

/// The line that is to be watched no more (`GPIO_GET_LINEINFO_UNWATCH_IOCTL`), 4 bytes: contracts see the
/// bytes.
#[derive(Drop)]
pub struct UnwatchRef<'a> {
    bytes: &'a [u8],
}

impl<'a> Model for UnwatchRef<'a> {
    ghost use Rattle.std.specs.Prelude.{◌≡◌, List, ℕ, length};
    ghost use Rattle.gl_uapi.specs.declared.layout.TheConstants.{UNWATCH_SIZE};

    ghost Value = { List ℕ };

    ghost view = { λ v. v.bytes.now };

    ghost invariant = { λ v. length v.bytes.now ≡ UNWATCH_SIZE };
}

impl<'a> UnwatchRef<'a> {
    /// The view of the first 4 bytes, or None where there are fewer.
    pub fn of(bytes: &'a [u8]) -> Option<UnwatchRef<'a>>
        ensures long { IsSome result ↔ (UNWATCH_SIZE ≤ length bytes.now) }
        ensures first { IfSome result (λ view. view ≡ take UNWATCH_SIZE bytes.now) }
    {
        if bytes.len() < UNWATCH_SIZE {
            return None;
        }
        Some(UnwatchRef {
            bytes: &bytes[..UNWATCH_SIZE],
        })
    }

    /// The line's offset on its chip.
    pub fn offset(&self) -> u32
        ensures { result ≡ number_at 4 UNWATCH_OFFSET self.now }
    {
        u32_at(self.bytes, UNWATCH_OFFSET)
    }
}
