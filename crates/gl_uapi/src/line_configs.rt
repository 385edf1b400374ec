//! The configuration of a request's lines, and its attributes.

ghost use Rattle.std.specs.Prelude.{◌≡◌, ◌+◌, ◌*◌, ◌<◌, ◌≤◌, ◌↔◌, IsSome, IfSome, length, take};
ghost use Rattle.gl_uapi.specs.Fields.{is_zero_at, number_at, stretch};

use crate::fields::{are_zero, bytes_at, u32_at, u64_at};
use crate::layout::{
    ATTRIBUTE_ID, ATTRIBUTE_VALUE, ATTRIBUTES_MAX, CONFIG_ATTRIBUTE_MASK, CONFIG_ATTRIBUTE_SIZE,
    CONFIG_ATTRIBUTES, CONFIG_FLAGS, CONFIG_NUM_ATTRS, CONFIG_PADDING, CONFIG_PADDING_SIZE,
    LINE_CONFIG_SIZE,
};
use std::marker::Model;

/// The configuration of a request's lines (`struct gpio_v2_line_config`), 272 bytes: contracts see the
/// bytes.
#[derive(Drop)]
pub struct ConfigRef<'a> {
    bytes: &'a [u8],
}

impl<'a> Model for ConfigRef<'a> {
    ghost use Rattle.std.specs.Prelude.{◌≡◌, List, ℕ, length};
    ghost use Rattle.gl_uapi.specs.declared.layout.TheConstants.{LINE_CONFIG_SIZE};

    ghost Value = { List ℕ };

    ghost view = { λ c. c.bytes.now };

    ghost invariant = { λ c. length c.bytes.now ≡ LINE_CONFIG_SIZE };
}

impl<'a> ConfigRef<'a> {
    /// The view of the first 272 bytes, or None where there are fewer.
    pub fn of(bytes: &'a [u8]) -> Option<ConfigRef<'a>>
        ensures long { IsSome result ↔ (LINE_CONFIG_SIZE ≤ length bytes.now) }
        ensures first { IfSome result (λ view. view ≡ take LINE_CONFIG_SIZE bytes.now) }
    {
        if bytes.len() < LINE_CONFIG_SIZE {
            return None;
        }
        Some(ConfigRef::whole(&bytes[..LINE_CONFIG_SIZE]))
    }

    pub(crate) fn whole(bytes: &'a [u8]) -> ConfigRef<'a>
        requires { length bytes.now ≡ LINE_CONFIG_SIZE }
        ensures { result ≡ bytes.now }
    {
        ConfigRef { bytes }
    }

    /// The flags of the lines that no attribute gives other flags.
    pub fn flags(&self) -> u64
        ensures { result ≡ number_at 8 CONFIG_FLAGS self.now }
    {
        u64_at(self.bytes, CONFIG_FLAGS)
    }

    /// How many attributes there are, as the bytes say: any number.
    pub fn num_attrs(&self) -> u32
        ensures { result ≡ number_at 4 CONFIG_NUM_ATTRS self.now }
    {
        u32_at(self.bytes, CONFIG_NUM_ATTRS)
    }

    /// Whether all of the configuration's own padding is zero.
    pub fn padding_is_zero(&self) -> bool
        ensures { result ≡ is_zero_at CONFIG_PADDING CONFIG_PADDING_SIZE self.now }
    {
        are_zero(self.bytes, CONFIG_PADDING, CONFIG_PADDING_SIZE)
    }

    /// The attribute at position `i`, 0 to 9, whether `num_attrs` counts it or not.
    pub fn attr(&self, i: u32) -> AttrRef<'a>
        requires { i < ATTRIBUTES_MAX }
        ensures { result ≡ stretch (CONFIG_ATTRIBUTES + CONFIG_ATTRIBUTE_SIZE * i) CONFIG_ATTRIBUTE_SIZE self.now }
    {
        let start = CONFIG_ATTRIBUTES + CONFIG_ATTRIBUTE_SIZE * i as usize;
        let bytes = bytes_at(self.bytes, start, CONFIG_ATTRIBUTE_SIZE);
        AttrRef { bytes }
    }
}

/// An attribute, and the lines that have it (`struct gpio_v2_line_config_attribute`), 24 bytes:
/// contracts see the bytes.
#[derive(Drop)]
pub struct AttrRef<'a> {
    bytes: &'a [u8],
}

impl<'a> Model for AttrRef<'a> {
    ghost use Rattle.std.specs.Prelude.{◌≡◌, List, ℕ, length};
    ghost use Rattle.gl_uapi.specs.declared.layout.TheConstants.{CONFIG_ATTRIBUTE_SIZE};

    ghost Value = { List ℕ };

    ghost view = { λ a. a.bytes.now };

    ghost invariant = { λ a. length a.bytes.now ≡ CONFIG_ATTRIBUTE_SIZE };
}

impl<'a> AttrRef<'a> {
    /// What kind of attribute it is: [`ATTRIBUTE_FLAGS`](crate::layout::ATTRIBUTE_FLAGS) or another.
    pub fn id(&self) -> u32
        ensures { result ≡ number_at 4 ATTRIBUTE_ID self.now }
    {
        u32_at(self.bytes, ATTRIBUTE_ID)
    }

    /// The flags, or the output values, a bit a line.
    pub fn value(&self) -> u64
        ensures { result ≡ number_at 8 ATTRIBUTE_VALUE self.now }
    {
        u64_at(self.bytes, ATTRIBUTE_VALUE)
    }

    /// The debounce period, in microseconds.
    pub fn period(&self) -> u32
        ensures { result ≡ number_at 4 ATTRIBUTE_VALUE self.now }
    {
        u32_at(self.bytes, ATTRIBUTE_VALUE)
    }

    /// The lines that have the attribute: bit `i` is the line at position `i` of the request.
    pub fn mask(&self) -> u64
        ensures { result ≡ number_at 8 CONFIG_ATTRIBUTE_MASK self.now }
    {
        u64_at(self.bytes, CONFIG_ATTRIBUTE_MASK)
    }
}
