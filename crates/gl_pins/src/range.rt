//! One range of pins.
ghost use Rattle.std.specs.Prelude.{◌≡◌, ◌+◌, ◌^◌, ◌<◌, IsTrue};
ghost use Rattle.gl_pins.specs.PinRange.{is_among, has_pin, has_offset, offset_in, pin_in, stretches_overlap, overlap};

/// A range maps `count` lines from `offset` on to as many pins from `pin` on, in order.
#[derive(Clone, Copy, PartialEq, Eq)]
pub struct PinRange {
    /// The first line's offset.
    pub offset: u32,
    /// The first pin's number.
    pub pin: u32,
    /// How many lines and pins there are.
    pub count: u32,
}

/// Whether a number is one of the `count` numbers from `first` on.
fn is_among(first: u32, count: u32, number: u32) -> bool
    ensures { result ≡ is_among first count number }
{
    first <= number && u64::from(number) < u64::from(first) + u64::from(count)
}

/// Whether a range has this pin.
pub(crate) fn has_pin(range: &PinRange, pin: u32) -> bool
    ensures { result ≡ has_pin pin range.now }
{
    is_among(range.pin, range.count, pin)
}

/// Whether a range has the line at this offset.
pub(crate) fn has_offset(range: &PinRange, offset: u32) -> bool
    ensures { result ≡ has_offset offset range.now }
{
    is_among(range.offset, range.count, offset)
}

/// The offset that a range maps to a pin that it has.
pub(crate) fn offset_in(range: &PinRange, pin: u32) -> u32
    requires has { IsTrue (has_pin pin range.now) }
    requires fits { range.now.offset + range.now.count < 2 ^ 32 }
    ensures { result ≡ offset_in pin range.now }
{
    range.offset + (pin - range.pin)
}

/// The pin that a range maps to an offset that it has.
pub(crate) fn pin_in(range: &PinRange, offset: u32) -> u32
    requires has { IsTrue (has_offset offset range.now) }
    requires fits { range.now.pin + range.now.count < 2 ^ 32 }
    ensures { result ≡ pin_in offset range.now }
{
    range.pin + (offset - range.offset)
}

/// Whether two stretches of numbers overlap.
fn stretches_overlap(first: u32, count: u32, other: u32, others: u32) -> bool
    ensures { result ≡ stretches_overlap first count other others }
{
    u64::from(first) < u64::from(other) + u64::from(others)
        && u64::from(other) < u64::from(first) + u64::from(count)
}

/// Whether two ranges overlap in their lines or in their pins.
pub(crate) fn overlap(range: &PinRange, other: &PinRange) -> bool
    ensures { result ≡ overlap range.now other.now }
{
    stretches_overlap(range.offset, range.count, other.offset, other.count)
        || stretches_overlap(range.pin, range.count, other.pin, other.count)
}
