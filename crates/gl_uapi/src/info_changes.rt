//! The changes of watched lines.

ghost use Rattle.std.specs.Prelude.{◌≡◌, ◌≤◌, ◌↔◌, ◌++◌, IsSome, IfSome, length, take, drop};
ghost use Rattle.gl_uapi.specs.Fields.{number_at, stretch};
ghost use Rattle.gl_uapi.specs.InfoChanged.{SpellsChanged, changed_bytes};

use crate::fields::{bytes_at, put_u32, put_u64, put_zeros, u32_at, u64_at};
use crate::layout::{
    CHANGED_INFO, CHANGED_KIND, CHANGED_PADDING, CHANGED_PADDING_SIZE, CHANGED_TIMESTAMP,
    INFO_CHANGED_SIZE, LINE_INFO_SIZE,
};
use crate::line_infos::{Info, InfoRef, write_line_info};
use std::marker::Model;

/// A change of a watched line.
#[derive(Clone, Copy, PartialEq, Eq)]
pub struct Changed {
    /// What is known of the line after the change.
    pub info: Info,
    /// When it changed, in nanoseconds of the monotonic clock.
    pub timestamp: u64,
    /// What kind of change it is: [`CHANGED_REQUESTED`](crate::layout::CHANGED_REQUESTED),
    /// [`CHANGED_RELEASED`](crate::layout::CHANGED_RELEASED) or
    /// [`CHANGED_CONFIG`](crate::layout::CHANGED_CONFIG).
    pub kind: u32,
}

/// A change of a watched line (`struct gpio_v2_line_info_changed`), 288 bytes: contracts see the bytes.
#[derive(Drop)]
pub struct ChangedRef<'a> {
    bytes: &'a [u8],
}

impl<'a> Model for ChangedRef<'a> {
    ghost use Rattle.std.specs.Prelude.{◌≡◌, List, ℕ, length};
    ghost use Rattle.gl_uapi.specs.declared.layout.TheConstants.{INFO_CHANGED_SIZE};

    ghost Value = { List ℕ };

    ghost view = { λ c. c.bytes.now };

    ghost invariant = { λ c. length c.bytes.now ≡ INFO_CHANGED_SIZE };
}

impl<'a> ChangedRef<'a> {
    /// The view of the first 288 bytes, or None where there are fewer.
    pub fn of(bytes: &'a [u8]) -> Option<ChangedRef<'a>>
        ensures long { IsSome result ↔ (INFO_CHANGED_SIZE ≤ length bytes.now) }
        ensures first { IfSome result (λ view. view ≡ take INFO_CHANGED_SIZE bytes.now) }
    {
        if bytes.len() < INFO_CHANGED_SIZE {
            return None;
        }
        let bytes = &bytes[..INFO_CHANGED_SIZE];
        Some(ChangedRef { bytes })
    }

    /// The line's information after the change.
    pub fn info(&self) -> InfoRef<'a>
        ensures { result ≡ stretch CHANGED_INFO LINE_INFO_SIZE self.now }
    {
        InfoRef::whole(bytes_at(self.bytes, CHANGED_INFO, LINE_INFO_SIZE))
    }

    /// When the line changed, in nanoseconds of the monotonic clock.
    pub fn timestamp(&self) -> u64
        ensures { result ≡ number_at 8 CHANGED_TIMESTAMP self.now }
    {
        u64_at(self.bytes, CHANGED_TIMESTAMP)
    }

    /// What kind of change it is, as the bytes say: any number.
    pub fn kind(&self) -> u32
        ensures { result ≡ number_at 4 CHANGED_KIND self.now }
    {
        u32_at(self.bytes, CHANGED_KIND)
    }
}

/// Writes the change over the first 288 bytes, and leaves the rest.
pub fn write_info_changed(out: &mut [u8], changed: &Changed)
    requires { INFO_CHANGED_SIZE ≤ length out.old }
    ensures spelled { SpellsChanged (take INFO_CHANGED_SIZE out.new) changed.now }
    ensures bytes { out.new ≡ changed_bytes changed.now ++ drop INFO_CHANGED_SIZE out.old }
{
    write_line_info(out, &changed.info);
    put_u64(out, CHANGED_TIMESTAMP, changed.timestamp);
    put_u32(out, CHANGED_KIND, changed.kind);
    put_zeros(out, CHANGED_PADDING, CHANGED_PADDING_SIZE);
}
