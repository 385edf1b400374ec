//! The information on a line.

ghost use Rattle.std.specs.Prelude.{◌≡◌, ◌≤◌, ◌↔◌, ◌++◌, IsSome, IfSome, length, take, drop};
ghost use Rattle.gl_uapi.specs.Fields.{is_zero_at, number_at, stretch};
ghost use Rattle.gl_uapi.specs.LineInfo.{SpellsInfo, attribute_count, attribute_id, info_bytes, info_period};

use crate::fields::{are_zero, name_at, put_name, put_u32, put_u64, put_zeros, u32_at, u64_at};
use crate::layout::{
    ATTRIBUTE_DEBOUNCE, ATTRIBUTE_ID, ATTRIBUTE_PADDING, ATTRIBUTE_PADDING_SIZE,
    ATTRIBUTE_PERIOD_END, ATTRIBUTE_VALUE, ATTRIBUTES_MAX, INFO_ATTRIBUTES, INFO_CONSUMER,
    INFO_FLAGS, INFO_NAME, INFO_NUM_ATTRS, INFO_OFFSET, INFO_PADDING, INFO_PADDING_SIZE,
    LINE_ATTRIBUTE_SIZE, LINE_INFO_SIZE, NAME_SIZE,
};
use gl_base::Name;
use std::marker::Model;

/// What is known of a line.
#[derive(Clone, Copy, PartialEq, Eq)]
pub struct Info {
    /// The line's name.
    pub name: Name,
    /// Who holds the line.
    pub consumer: Name,
    /// The line's offset on its chip.
    pub offset: u32,
    /// The line's flags.
    pub flags: u64,
    /// The line's debounce period in microseconds; 0 means that it isn't debounced.
    pub period: u32,
}

/// The information on a line (`struct gpio_v2_line_info`), 256 bytes: contracts see the bytes.
#[derive(Drop)]
pub struct InfoRef<'a> {
    bytes: &'a [u8],
}

impl<'a> Model for InfoRef<'a> {
    ghost use Rattle.std.specs.Prelude.{◌≡◌, List, ℕ, length};
    ghost use Rattle.gl_uapi.specs.declared.layout.TheConstants.{LINE_INFO_SIZE};

    ghost Value = { List ℕ };

    ghost view = { λ i. i.bytes.now };

    ghost invariant = { λ i. length i.bytes.now ≡ LINE_INFO_SIZE };
}

impl<'a> InfoRef<'a> {
    /// The view of the first 256 bytes, or None where there are fewer.
    pub fn of(bytes: &'a [u8]) -> Option<InfoRef<'a>>
        ensures long { IsSome result ↔ (LINE_INFO_SIZE ≤ length bytes.now) }
        ensures first { IfSome result (λ view. view ≡ take LINE_INFO_SIZE bytes.now) }
    {
        if bytes.len() < LINE_INFO_SIZE {
            return None;
        }
        Some(InfoRef::whole(&bytes[..LINE_INFO_SIZE]))
    }

    pub(crate) fn whole(bytes: &'a [u8]) -> InfoRef<'a>
        requires { length bytes.now ≡ LINE_INFO_SIZE }
        ensures { result ≡ bytes.now }
    {
        InfoRef { bytes }
    }

    /// The name field with the line's name.
    pub fn name(&self) -> &'a [u8; NAME_SIZE]
        ensures { result.now ≡ stretch INFO_NAME NAME_SIZE self.now }
    {
        name_at(self.bytes, INFO_NAME)
    }

    /// The name field with who holds the line.
    pub fn consumer(&self) -> &'a [u8; NAME_SIZE]
        ensures { result.now ≡ stretch INFO_CONSUMER NAME_SIZE self.now }
    {
        name_at(self.bytes, INFO_CONSUMER)
    }

    /// The line's offset on its chip.
    pub fn offset(&self) -> u32
        ensures { result ≡ number_at 4 INFO_OFFSET self.now }
    {
        u32_at(self.bytes, INFO_OFFSET)
    }

    /// The line's flags.
    pub fn flags(&self) -> u64
        ensures { result ≡ number_at 8 INFO_FLAGS self.now }
    {
        u64_at(self.bytes, INFO_FLAGS)
    }

    /// The debounce period in microseconds: that of the first attribute, among as many as the
    /// information says that it has, ten at most, which is a debounce period; else 0.
    pub fn period(&self) -> u32
        ensures { result ≡ info_period self.now }
    {
        let count = u32_at(self.bytes, INFO_NUM_ATTRS).min(ATTRIBUTES_MAX);
        for i in 0..count {
            let start = INFO_ATTRIBUTES + LINE_ATTRIBUTE_SIZE * i as usize;
            if u32_at(self.bytes, start + ATTRIBUTE_ID) == ATTRIBUTE_DEBOUNCE {
                return u32_at(self.bytes, start + ATTRIBUTE_VALUE);
            }
        }
        0
    }

    /// Whether all of the information's own padding is zero.
    pub fn padding_is_zero(&self) -> bool
        ensures { result ≡ is_zero_at INFO_PADDING INFO_PADDING_SIZE self.now }
    {
        are_zero(self.bytes, INFO_PADDING, INFO_PADDING_SIZE)
    }
}

/// Writes the information on a line over the first 256 bytes, and leaves the rest. A period that isn't
/// 0 is the first attribute, and the only one.
pub fn write_line_info(out: &mut [u8], info: &Info)
    requires { LINE_INFO_SIZE ≤ length out.old }
    ensures spelled { SpellsInfo (take LINE_INFO_SIZE out.new) info.now }
    ensures bytes { out.new ≡ info_bytes info.now ++ drop LINE_INFO_SIZE out.old }
{
    let (count, id) = attribute_of(info.period);
    put_name(out, INFO_NAME, &info.name);
    put_name(out, INFO_CONSUMER, &info.consumer);
    put_u32(out, INFO_OFFSET, info.offset);
    put_u32(out, INFO_NUM_ATTRS, count);
    put_u64(out, INFO_FLAGS, info.flags);
    put_u32(out, INFO_ATTRIBUTES + ATTRIBUTE_ID, id);
    put_zeros(
        out,
        INFO_ATTRIBUTES + ATTRIBUTE_PADDING,
        ATTRIBUTE_PADDING_SIZE,
    );
    put_u32(out, INFO_ATTRIBUTES + ATTRIBUTE_VALUE, info.period);
    let period_end = INFO_ATTRIBUTES + ATTRIBUTE_PERIOD_END;
    put_zeros(out, period_end, LINE_INFO_SIZE - period_end);
}

/// How many attributes tell this period, and the id of the first.
fn attribute_of(period: u32) -> (u32, u32)
    ensures count { result.0 ≡ attribute_count period }
    ensures id { result.1 ≡ attribute_id period }
{
    if period == 0 {
        (0, 0)
    } else {
        (1, ATTRIBUTE_DEBOUNCE)
    }
}
